//! The kernel: the only place where theorems are made.
//!
//! A `Kernel` holds terms, facts, a context and records. Each record's conclusion is derivable, by the rules of natural
//! deduction for HOL, from the facts under the context and the record's own hypotheses. Each rule is one call that adds a
//! record or answers that its condition fails; `adopt` alone takes a formula on its caller's word, which is a condition.
//! `concl` and `hyps` lend what a record says, and their contracts say that it is derivable.
#![tactic(auto)]

mod crosses;
mod hyps;
mod kernel;
mod known;
mod mark;
mod premises;
mod rules;
mod thm;

pub use crosses::may_cross;
pub use kernel::{Kernel, Records};
pub use mark::KernelMark;
pub use rules::RuleFault;
pub use thm::{Made, Thm, ThmId};
