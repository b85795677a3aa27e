//! Tests of the kernel through its public calls: each rule where it applies and where its condition fails, and scripts of
//! calls whose records were worked out by hand. They stand in a crate of their own, since a crate with tests is proved twice.
#![tactic(auto)]

#[cfg(test)]
mod calls;
#[cfg(test)]
mod contexts;
#[cfg(test)]
mod equations;
#[cfg(test)]
mod instances;
#[cfg(test)]
mod marks;
#[cfg(test)]
mod propositions;
#[cfg(test)]
mod quantifiers;
#[cfg(test)]
mod rules;
#[cfg(test)]
mod script;
#[cfg(test)]
mod small_records;
#[cfg(test)]
mod tables;
