//! Goals, written as a goal file writes them.
//!
//! `print_goal` appends the text of a problem's goal, which reads as the same term under the problem's declarations.
//!
//! What is still to be written is a list of pieces. A type or a term on it is taken apart into the words that stand for it and
//! its own parts, and a word is written. A term goes on with the list in which it stands where both are of one kind (`Kind`): so
//! spines and chains of binders become one list, without a walk ahead.
#![tactic(auto)]

mod constants;
mod kind;
mod piece;
mod print;
mod terms;
mod types;
mod write;

pub use print::print_goal;
