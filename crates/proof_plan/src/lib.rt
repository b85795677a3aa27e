//! A proof as a plan: numbered rule applications over frozen terms.
//!
//! A reader makes a `Plan` by `Plan::new`, under the conditions of `IsPlan`: premises come before what uses
//! them, claims are formulas, and the last node concludes `false`. Replay methods read a node as a `Task`, whose
//! calls say what the node's rule asks (`Accept`), which hypotheses it may use (`Hyps`), and what it claims
//! (`Claim`). `PlainReplay` is the state of each node where every rule is replayed by itself.
#![tactic(auto)]

mod node;
mod plan;
mod rule;
mod send;
mod size;
mod state;
mod step;
mod weight;
mod why;

pub use hol_terms::{Def, Instance, Parts};
pub use node::PlanNode;
pub use plan::{Plan, task};
pub use rule::Rule;
pub use send::may_be_shared;
pub use size::{MOST_PARTS, too_large};
pub use state::{ReplayFault, State};
pub use step::Task;
pub use weight::Weight;
pub use why::{Why, append_why};
