//! First-order matching: terms for the Schematic variables of a pattern with which it is a given term, and the instance of a
//! term under given terms. A pattern and its term may stand in one store or in two.
#![tactic(auto)]

mod applying;
mod inst;
mod matching;
mod same_types;
mod sides;

pub use applying::apply;
pub use inst::Inst;
pub use matching::{match_across, match_term};
