//! The trees of a proof file.
ghost use Rattle.std.specs.Prelude.{◌≡◌, length, nat_eq};
ghost use Rattle.std.specs.List.{list_any};
ghost use Rattle.sexp.specs.Forest.{trees_at};
ghost use Rattle.first_form.specs.Forest.{trees_of};
ghost use Rattle.first_form.specs.Read.{Gives};

use crate::failure::FormFailure;
use sexp::{Forest, SexpFault, read_forest};
use std::alloc::Global;

/// The trees of a text of at most 4 MiB without comments and deep lists.
pub fn trees(alloc: Global, bytes: &[u8]) -> Result<Forest, FormFailure>
    ensures { Gives (λ forest. trees_at forest 0 (length forest)) result (trees_of bytes.now) }
{
    if has_comment(bytes) {
        return Err(FormFailure::Refused);
    }
    match read_forest(alloc, bytes, 4_194_304) {
        Ok(forest) => Ok(forest),
        Err(fault) => match fault {
            SexpFault::Memory => Err(FormFailure::Memory),
            _ => Err(FormFailure::Refused),
        },
    }
}

/// Whether a byte of the text begins a comment.
fn has_comment(bytes: &[u8]) -> bool
    ensures { result ≡ list_any (nat_eq 59) bytes.now }
{
    for b in bytes {
        if *b == b';' {
            return true;
        }
    }
    false
}
