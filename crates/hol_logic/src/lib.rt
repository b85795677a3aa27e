//! Derived rules: each is a few calls of the kernel's rules, and gives the theorem that its contract states.
#![tactic(auto)]

mod abstraction;
mod congruence;
mod conjunction;
mod contradiction;
mod cutting;
mod definition;
mod disjunction;
mod duals;
mod equality;
mod existential;
mod expansion;
mod fresh;
mod implication;
mod instances;
mod makers;
mod quantified;
mod quantifier;
mod universal;

pub use abstraction::{under_all, under_ex};
pub use congruence::cong;
pub use cutting::cut;
pub use definition::drop_definition;
pub use duals::de_morgan;
pub use equality::{sym, trans};
pub use instances::instance;
