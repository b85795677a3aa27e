//! The last step: the theorem of a goal.
//!
//! A plan refutes a problem: its root derives `false` from the facts under its assertions. Where these are the facts and
//! the negation of the goal, the goal follows from the facts alone. `finish` takes such a plan, whose root's claim its
//! caller has shown, and gives a `Proved`: the goal and the facts, of which its type says that the goal is derivable from
//! the facts without hypotheses.
#![tactic(auto)]

mod proved;

pub use proved::{Proved, finish};
