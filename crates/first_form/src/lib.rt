//! Reader of the first proof form.
//!
//! `read_proof` reads a proof file about the problem of a goal file: `(proof P)`, where P is `(asserted F)`, `(mp P P F)`
//! or `(unit-resolution P .. F)`. Formulas are `false`, `(not F)`, `(=> F F ..)`, and the problem's constants of type Bool
//! with `$` behind their names. What is asserted is a fact or the negated goal, the last formula is `false`, and there are
//! at most 400,000 rule applications, as many as a plan holds. Its answer is a `Plan`.
//!
//! A file has at most 4 MiB and no list deeper than 2,000, and neither comments nor bars. `Refused` is answered exactly
//! where the text is outside this form.
//!
//! This form is the first one: other connectives, quantifiers, types, `let` and commands come with another reader.
#![tactic(auto)]

mod assertions;
mod failure;
mod forest;
mod formula;
mod lexicon;
mod made;
mod proof_file;
mod proof_form;
mod propositions;
mod setting;
mod tree;

pub use failure::FormFailure;
pub use proof_file::read_proof;
