//! Terms by number, each kept once.
ghost use Rattle.std.specs.Prelude.{◌≡◌, IfOk, OnOk, IfErr, Some};
ghost use Rattle.hol_terms.specs.Term.{Typed};
ghost use Rattle.hol_terms.specs.TermStore.{IsTermStore, GrowsTo, Keeps, TermsApart, joined, term_tree, tree_of, HasTerm, HasParts};

use crate::node::{Node, TermId};
use crate::tables::{TermTables, add_in, found_in};
use crate::typed::{TermFault, node_reach_in, type_of_in, typed_in};
use std::alloc::AllocError;

fn intern_step(base: &TermTables, own: &mut TermTables, node: Node) -> Result<TermId, TermFault>
    requires lawful { IsTermStore (joined base.now own.old) }
    requires parts { HasParts (joined base.now own.old) node }
    ensures there { IfOk result (λ t. HasTerm (joined base.now own.new) t) }
    ensures tree { IfOk result (λ t. term_tree (joined base.now own.new) t ≡ tree_of (joined base.now own.old) node) }
    ensures typed { OnOk result (Typed (tree_of (joined base.now own.old) node)) }
    ensures ill { IfErr result (λ e. e ≡ TermFault.Ill → Typed (tree_of (joined base.now own.old) node) → ⊥) }
    ensures refused { IfErr result (λ e. e ≡ TermFault.Ill → own.new ≡ own.old) }
    ensures lawful { IsTermStore (joined base.now own.new) }
    ensures grows { GrowsTo (joined base.now own.old) (joined base.now own.new) }
{
    match found_in(base, own, &node)? {
        Some(t) => Ok(t),
        None => {
            let ty = typed_in(base, own, node)?;
            let reach = node_reach_in(base, own, node)?;
            let t = add_in(base, own, node, ty, reach)?;
            Ok(t)
        }
    }
}

/// The number of a term, which may be new.
pub(crate) fn intern_in(
    base: &TermTables,
    own: &mut TermTables,
    node: Node,
) -> Result<TermId, TermFault>
    requires lawful { IsTermStore (joined base.now own.old) }
    requires parts { HasParts (joined base.now own.old) node }
    ensures there { IfOk result (λ t. HasTerm (joined base.now own.new) t) }
    ensures tree { IfOk result (λ t. term_tree (joined base.now own.new) t ≡ tree_of (joined base.now own.old) node) }
    ensures typed { OnOk result (Typed (tree_of (joined base.now own.old) node)) }
    ensures ill { IfErr result (λ e. e ≡ TermFault.Ill → Typed (tree_of (joined base.now own.old) node) → ⊥) }
    ensures refused { IfErr result (λ e. e ≡ TermFault.Ill → own.new ≡ own.old) }
    ensures apart { TermsApart (joined base.now own.new) }
    ensures lawful { IsTermStore (joined base.now own.new) }
    ensures keeps { Keeps (joined base.now own.old) (joined base.now own.new) }
{
    intern_step(base, own, node)
}

fn make_step(base: &TermTables, own: &mut TermTables, node: Node) -> Result<TermId, AllocError>
    requires lawful { IsTermStore (joined base.now own.old) }
    requires parts { HasParts (joined base.now own.old) node }
    requires typed { Typed (tree_of (joined base.now own.old) node) }
    ensures there { IfOk result (λ t. HasTerm (joined base.now own.new) t) }
    ensures tree { IfOk result (λ t. term_tree (joined base.now own.new) t ≡ tree_of (joined base.now own.old) node) }
    ensures lawful { IsTermStore (joined base.now own.new) }
    ensures grows { GrowsTo (joined base.now own.old) (joined base.now own.new) }
{
    match found_in(base, own, &node)? {
        Some(t) => Ok(t),
        None => {
            let ty = type_of_in(base, own, node)?;
            let reach = node_reach_in(base, own, node)?;
            let t = add_in(base, own, node, ty, reach)?;
            Ok(t)
        }
    }
}

/// The number of a typed term, which may be new.
pub(crate) fn make_in(
    base: &TermTables,
    own: &mut TermTables,
    node: Node,
) -> Result<TermId, AllocError>
    requires lawful { IsTermStore (joined base.now own.old) }
    requires parts { HasParts (joined base.now own.old) node }
    requires typed { Typed (tree_of (joined base.now own.old) node) }
    ensures there { IfOk result (λ t. HasTerm (joined base.now own.new) t) }
    ensures tree { IfOk result (λ t. term_tree (joined base.now own.new) t ≡ tree_of (joined base.now own.old) node) }
    ensures apart { TermsApart (joined base.now own.new) }
    ensures lawful { IsTermStore (joined base.now own.new) }
    ensures keeps { Keeps (joined base.now own.old) (joined base.now own.new) }
{
    make_step(base, own, node)
}
