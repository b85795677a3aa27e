//! Tests of the crates on terms above the store, through their public calls: what no clause says, that the calls succeed,
//! and that the clauses mean what they should on small cases.
#![tactic(auto)]

#[cfg(test)]
mod matching;
