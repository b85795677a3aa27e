//! What may go to other threads.
use crate::list::{Bytes, List};
use crate::tables::TypeTables;
use crate::types::Types;

fn crosses<T: Send + Sync>(_value: &T) {}

// Types and their tables, lists and bytes are shared and sent: that this compiles shows it.
fn may_cross(types: &Types, tables: &TypeTables, list: &List<u32>, bytes: &Bytes) {
    crosses(types);
    crosses(tables);
    crosses(list);
    crosses(bytes);
}
