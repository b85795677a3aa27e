//! Tests of the crates below the program, through their public calls: what no clause says, that the calls succeed, and
//! that the clauses mean what they should on small cases. They stand together here, since a crate with tests is proved
//! twice.
#![tactic(auto)]

#[cfg(test)]
mod files;
#[cfg(test)]
mod lists;
#[cfg(test)]
mod parts;
#[cfg(test)]
mod plans;
#[cfg(test)]
mod small_terms;
#[cfg(test)]
mod small_types;
#[cfg(test)]
mod terms;
#[cfg(test)]
mod texts;
#[cfg(test)]
mod tokens;
#[cfg(test)]
mod type_calls;
#[cfg(test)]
mod types;
