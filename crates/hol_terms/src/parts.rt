//! What an input file gives: facts, a goal, and what they were made into.
use crate::node::TermId;
use hol_types::{List, Subst};

/// A symbol that stands for a term.
#[derive(Clone, Copy, Debug, PartialEq, Eq)]
pub struct Def {
    /// The free variable of the symbol.
    pub symbol: TermId,
    /// What it stands for.
    pub body: TermId,
}

/// A fact at types.
#[derive(Debug, Drop)]
pub struct Instance {
    /// The fact's place among the facts.
    pub fact: u32,
    /// The types for its type variables.
    pub types: Subst,
    /// The fact under these types.
    pub term: TermId,
}

/// The parts of a problem, terms by their numbers in one store.
#[derive(Debug, Drop)]
pub struct Parts {
    /// The facts, in the order of the file.
    pub facts: List<TermId>,
    /// The goal.
    pub goal: TermId,
    /// What a proof may assert.
    pub assertions: List<TermId>,
    /// The symbols that stand for terms.
    pub defs: List<Def>,
    /// Which instance of which fact each assertion comes from.
    pub origins: List<Instance>,
}
