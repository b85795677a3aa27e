//! The problem that a goal file says.
use hol_terms::{Base, TermId};
use hol_types::{List, NameId, TypeId};

/// A declared constant.
#[derive(Clone, Copy, Debug)]
pub struct Declared {
    pub name: NameId,
    /// Its declared type. Of the type variables in it, each use has an instance.
    pub ty: TypeId,
}

/// A goal under facts, in a store of terms. `IsProblem` says what its numbers stand for, and that facts and goal are terms that the
/// grammar of goal files gives under its declarations.
#[derive(Drop)]
pub struct Problem {
    pub base: Base,
    /// The file's constants in its order.
    pub consts: List<Declared>,
    /// The facts in the order of the file. The type variables of a fact are schematic: it stands for all instances.
    pub facts: List<TermId>,
    /// The goal, whose type variables are fixed types.
    pub goal: TermId,
}
