//! Replay of the basic proof rules: each rule application of a plan as a theorem of the kernel.
//!
//! `replay` takes the theorems of a node's premises and gives that of the node, exactly where the node's rule accepts
//! it, and else the cause. It works by the kernel's rules alone and adopts nothing. Read so far are `asserted`,
//! `goal`, `mp` by an implication, and `unit-resolution` on claims without `or`; the row of each other rule reads: Shape.
#![tactic(auto)]

mod assertion;
mod implication;
mod method;
mod resolution;

pub use method::replay;
