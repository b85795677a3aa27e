//! Records of theorems.
ghost use Rattle.std.specs.Prelude.{◌≡◌};

use hol_terms::TermId;
use hol_types::List;
use std::marker::Model;

/// The number of a record in its kernel.
#[derive(Clone, Copy, PartialEq, Eq, Hash, Debug)]
pub struct ThmId {
    index: usize,
}

impl Model for ThmId {
    ghost use Rattle.std.specs.Prelude.{ℕ};

    ghost Value = { ℕ };

    ghost view = { λ n. n.index };

    ghost inverse = { λ n. record { index = n } };
}

impl ThmId {
    pub(crate) fn new(index: usize) -> ThmId
        ensures { result ≡ index }
    {
        ThmId { index }
    }

    pub(crate) fn index(self) -> usize
        ensures { result ≡ self }
    {
        self.index
    }
}

/// How a record was made.
#[derive(Clone, Copy, PartialEq, Eq, Debug)]
pub enum Made {
    /// By a rule of the kernel.
    Rule,
    /// By `adopt`: it was known to be derivable.
    Adopted,
    /// From a schema.
    Opened,
}

/// A record: a conclusion with its hypotheses outside the context.
#[derive(Debug)]
pub struct Thm {
    /// In rising order, each once.
    pub hyps: List<TermId>,
    /// The conclusion.
    pub concl: TermId,
    /// How it was made.
    pub made: Made,
    /// Whether it was derived without facts.
    pub bare: bool,
}

impl Drop for Thm {
    fn drop(self) {
        let Thm {
            hyps: _,
            concl: _,
            made: _,
            bare: _,
        } = self;
    }
}
