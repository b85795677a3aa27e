//! The numbers of the distinct parts of terms: how large a proof step is, and which of its parts a cause names.
#![tactic(auto)]

mod parts;
mod stack;

pub use parts::PartNumbers;
