//! Short lists.
ghost use Rattle.std.specs.Prelude.{◌≡◌, ◌∷◌, [], IfOk};

use hol_types::List;
use std::alloc::{AllocError, Global};

// A list of one item.
pub(crate) fn one<T: Drop>(alloc: Global, item: T) -> Result<List<T>, AllocError>
    ensures { IfOk result (λ list. list ≡ item ∷ []) }
{
    let mut list = List::with_capacity(alloc, 1)?;
    list.push(item)?;
    Ok(list)
}
