//! Tests of goal files, through the public calls of their reader and their printer. They stand in a crate of their own, since a crate with
//! tests is proved twice.
#![tactic(auto)]

#[cfg(test)]
mod goal;
#[cfg(test)]
mod print;
