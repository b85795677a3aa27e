//! Tests of the derived rules, through their public calls: that they succeed, and that their clauses mean what they should
//! on small records.
#![tactic(auto)]

#[cfg(test)]
mod duals;
#[cfg(test)]
mod rules;
