//! Types of simple type theory, each kept once.
#![tactic(auto)]

mod deep;
mod file_name;
mod instance;
mod layer;
mod list;
mod matching;
mod node;
mod pairs;
mod room;
mod send;
mod table;
mod tables;
mod types;

pub use deep::deep_parts;
pub use file_name::FileName;
pub use instance::{Subst, TypeInstances, instance_in, instance_part};
pub use layer::{find_bytes_in, find_in, item_in, number, number_in, number_of_bytes};
pub use list::{Bytes, List};
pub use matching::match_in;
pub use node::{NameId, TypeId, TypeNode};
pub use room::Room;
pub use table::{Exact, Table};
pub use tables::{
    TypeFault, TypeMark, TypeTables, arity_in, declare_in, intern_in, mark_in, name_in, node_in,
    reset_in, text_in,
};
pub use types::Types;
