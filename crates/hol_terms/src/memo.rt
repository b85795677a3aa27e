//! What the walks over terms remember, so that a shared part is walked once.
use crate::node::TermId;
use std::collections::{HashMap, HashSet};

/// A part of a term, with the number of binders that stand around it.
#[derive(Clone, Copy, PartialEq, Eq, PartialOrd, Ord, Hash, Debug)]
pub struct Part {
    /// The part.
    pub term: TermId,
    /// The index that the Bound in question has there.
    pub index: u32,
}

/// The parts that are done.
pub(crate) type Parts = HashSet<Part>;

/// The parts that are done, with what was made of them.
pub(crate) type Memo = HashMap<Part, TermId>;
