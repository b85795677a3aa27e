//! One rule application.
use crate::rule::Rule;
use crate::weight::Weight;
use hol_terms::TermId;
use hol_types::List;

/// A rule application of a proof.
#[derive(Debug)]
pub struct PlanNode {
    /// The name that a `let` binds to it, else `#` and its place.
    pub name: List<u8>,
    /// The byte of its opening parenthesis in the proof file.
    pub place: u64,
    pub rule: Rule,
    /// The coefficients of a `th-lemma`.
    pub weights: List<Weight>,
    /// The numbers of its premises, each below its own.
    pub premises: List<u64>,
    /// The variables that it adds to the environment of its premises.
    pub vars: List<TermId>,
    /// Its conclusion.
    pub claim: TermId,
    /// Its open hypotheses.
    pub hyps: List<TermId>,
}

impl Drop for PlanNode {
    fn drop(self) {
        let PlanNode {
            name: _,
            place: _,
            rule: _,
            weights: _,
            premises: _,
            vars: _,
            claim: _,
            hyps: _,
        } = self;
    }
}
