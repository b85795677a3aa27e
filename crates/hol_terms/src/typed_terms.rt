//! Terms that are known to be typed.
ghost use Rattle.std.specs.Prelude.{◌≡◌, IfOk};
ghost use Rattle.hol_terms.specs.Term.{Typed};
ghost use Rattle.hol_terms.specs.TermStore.{Keeps, term_tree, tree_of, HasTerm, HasParts};

use crate::node::{Node, TermId};
use crate::terms::Terms;
use std::alloc::AllocError;

/// The number of a typed term, given by the numbers of its parts. It is added where it is new.
pub fn make<S: Terms>(store: &mut S, node: Node) -> Result<TermId, AllocError>
    requires parts { HasParts (S.store store.old) node }
    requires typed { Typed (tree_of (S.store store.old) node) }
    ensures there { IfOk result (λ t. HasTerm (S.store store.new) t) }
    ensures tree { IfOk result (λ t. term_tree (S.store store.new) t ≡ tree_of (S.store store.old) node) }
    ensures keeps { Keeps (S.store store.old) (S.store store.new) }
    ensures rest { S.rest store.new ≡ S.rest store.old }
{
    store.make(node)
}
