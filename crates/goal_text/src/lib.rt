//! Goal files: what a text says, or its first fault.
//!
//! `read_goal` reads the whole text: type constructors, constants, facts and exactly one goal, with terms of simple type
//! theory. Its answer is a `Problem`, or the first fault with its kind and the byte at which it stands.
//!
//! Trees come from `sexp`, types and terms are kept in a `Base` of `hol_terms`, each once. A name is found by its hash. The
//! reader takes one step for each part of the text, and calls itself as deep as lists are nested.
#![tactic(auto)]

mod binders;
mod built;
mod constants;
mod fault;
mod form;
mod items;
mod lexicon;
mod made;
mod matching;
mod names;
mod operations;
mod problem;
mod read;
mod scope;
mod term;
mod tree;
mod types;
mod word;

pub use fault::{GoalFailure, GoalFault, GoalKind};
pub use matching::is_ground;
pub use problem::{Declared, Problem};
pub use read::read_goal;
