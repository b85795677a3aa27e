//! Terms by number, and by the numbers of their parts.
ghost use Rattle.std.specs.Prelude.{◌≡◌};

use hol_types::{Exact, NameId, TypeId};
use std::marker::Model;

/// What a free variable stands for.
#[derive(Clone, Copy, PartialEq, Eq, Hash, Debug)]
pub enum FreeKind {
    /// A variable that a proof opened a binder with.
    Open,
    /// A symbol that a definition introduces.
    Symbol,
    /// The function that a lambda is lifted to.
    Lifted,
    /// A variable that any term may stand for.
    Schematic,
}

/// The number of a term in a store.
#[derive(Clone, Copy, PartialEq, Eq, PartialOrd, Ord, Hash, Debug)]
pub struct TermId {
    index: u32,
}

impl Model for TermId {
    ghost use Rattle.std.specs.Prelude.{ℕ};

    ghost Value = { ℕ };

    ghost view = { λ n. n.index };

    ghost inverse = { λ n. record { index = n } };
}

impl TermId {
    pub(crate) fn new(index: u32) -> TermId
        ensures { result ≡ index }
    {
        TermId { index }
    }

    pub(crate) fn index(self) -> u32
        ensures { result ≡ self }
    {
        self.index
    }
}

/// A term of simple type theory, by the numbers of its parts. Bound variables are numbered by the binders between
/// (de Bruijn's indices), and each carries its type.
#[derive(Clone, Copy, PartialEq, Eq, Hash, Debug)]
pub enum Node {
    /// A free variable.
    Free(FreeKind, NameId, TypeId),
    /// The variable of the binder that stands so many binders further out.
    Bound(u32, TypeId),
    /// A constant at a type.
    Const(NameId, TypeId),
    /// An integer, below 2^127 in absolute value.
    Num(i128),
    /// A function applied to an argument.
    App(TermId, TermId),
    /// The function of a variable of the type, with its body.
    Lam(TypeId, TermId),
}

impl Exact for Node {
    ghost use Rattle.hol_terms.specs.Exact.{node_exact};

    ghost exact = { node_exact };
}
