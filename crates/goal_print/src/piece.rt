//! What is still to be written.
use crate::kind::Kind;
use hol_terms::TermId;
use hol_types::{NameId, TypeId};

/// What is written at once.
#[derive(Clone, Copy, Debug)]
pub enum Word {
    Blank,
    Open,
    Close,
    /// The head of a function type.
    Arrow,
    /// The head of a constant with its type.
    As,
    Bool,
    Int,
    /// What leads to a term of the kind in its place.
    Lead(Option<Kind>, Kind),
    /// What opens the list of such a term, where it doesn't go on with another.
    OpenList(Option<Kind>, Kind),
    /// What closes it.
    CloseList(Option<Kind>, Kind),
    Name(NameId),
    /// A constant by the word of the grammar.
    Constant(NameId),
    Literal(i128),
    /// The variable of a binder with so many round it.
    Variable(u32),
}

/// A piece of the text.
#[derive(Clone, Copy, Debug)]
pub enum Piece {
    Word(Word),
    /// A type, and whether it is given by the function type whose list it stands in.
    TypeText(TypeId, bool),
    /// A term in its place, within so many binders.
    TermText(Option<Kind>, u32, TermId),
}
