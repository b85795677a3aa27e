//! Terms of simple type theory, each kept once.
#![tactic(auto)]

mod base;
mod close;
mod constants;
mod crosses;
mod deep;
mod fits;
mod free_in;
mod instantiate;
mod intern;
mod memo;
mod node;
mod open;
mod parts;
mod places;
mod subst;
mod tables;
mod terms;
mod type_tables;
mod typed;
mod typed_terms;

pub use base::{Base, Frozen, Store};
pub use constants::built_in;
pub use memo::Part;
pub use node::{FreeKind, Node, TermId};
pub use parts::{Def, Instance, Parts};
pub use tables::Mark;
pub use terms::Terms;
pub use typed::TermFault;
pub use typed_terms::make;
