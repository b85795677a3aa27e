//! Formulas of HOL by number, in any store of terms: their makers and the tests of their forms.
//!
//! `Constants` holds the numbers of HOL's constants in a store. The makers take it and give the numbers of formulas made of
//! given ones; the readers give a formula's parts, or None exactly where it isn't of the form. `variables` and
//! `type_variables` find what is free in lists of formulas, and `unchanged` asks whether types leave type variables alone.
#![tactic(auto)]

pub mod binder;
pub mod equation;
pub mod formula;
pub mod type_variables;
pub mod unchanged;
pub mod variables;
