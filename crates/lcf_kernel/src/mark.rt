//! How much a kernel holds.
use hol_terms::Mark;

/// How much a kernel held: its terms and its records.
#[derive(Clone, Copy, Debug)]
pub struct KernelMark {
    /// How much of names, types and terms.
    pub store: Mark,
    /// How many records.
    pub thms: usize,
}
