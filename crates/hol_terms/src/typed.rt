//! Which nodes are typed, the numbers of their types, and how far their loose Bounds reach.
ghost use Rattle.std.specs.Prelude.{◌≡◌, IfOk, IfNone, IfSome, OnOk, IfErr};
ghost use Rattle.hol_types.specs.TypeStore.{type_tree, HasType, HasArity, HasTypeParts};
ghost use Rattle.hol_types.specs.TypeStore as types;
ghost use Rattle.hol_types.specs.Ty.{FunTy};
ghost use Rattle.hol_terms.specs.Term.{Typed, ty_of, result_ty};
ghost use Rattle.hol_terms.specs.Reach.{reach_of};
ghost use Rattle.hol_terms.specs.TermStore.{IsTermStore, GrowsTo, joined, term_tree, tree_of, HasTerm, HasParts, Applies};

use crate::fits::bounds_fit;
use crate::node::{Node, TermId};
use crate::tables::{TermTables, reach_in, ty_in};
use crate::type_tables::{intern_type_in, type_node_in};
use hol_types::{TypeFault, TypeId, TypeNode};
use std::alloc::AllocError;

/// Why a term wasn't taken.
#[derive(Debug, Drop, PartialEq, Eq)]
pub enum TermFault {
    /// It isn't typed: an application doesn't fit, a Bound doesn't have its binder's type, or a number isn't below
    /// 2^127 in absolute value.
    Ill,
    /// There is no memory for it, or no number of 32 bits.
    Memory,
}

impl From<AllocError> for TermFault {
    ghost use Rattle.hol_terms.specs.declared.typed.TermFault.TheVariants.{Memory};
    ghost use Rattle.std.specs.Prelude.{◌≡◌};

    ghost from_gives = { λ e f. f ≡ Memory };

    fn from(_: AllocError) -> TermFault {
        TermFault::Memory
    }
}

/// The number of a type without a constructor.
fn plain_type_in(
    base: &TermTables,
    own: &mut TermTables,
    node: TypeNode,
) -> Result<TypeId, AllocError>
    requires lawful { IsTermStore (joined base.now own.old) }
    requires parts { HasTypeParts (joined base.now own.old).types node }
    requires arity { HasArity (joined base.now own.old).types node }
    ensures there { IfOk result (λ t. HasType (joined base.now own.new).types t) }
    ensures tree { IfOk result (λ t. type_tree (joined base.now own.new).types t ≡ types.tree_of (joined base.now own.old).types node) }
    ensures lawful { IsTermStore (joined base.now own.new) }
    ensures grows { GrowsTo (joined base.now own.old) (joined base.now own.new) }
    ensures nodes { own.new.nodes ≡ own.old.nodes }
{
    match intern_type_in(base, own, node) {
        Ok(t) => Ok(t),
        Err(TypeFault::Memory) => Err(AllocError),
        Err(TypeFault::Arity) => unreachable!(),
    }
}

/// The type of a lambda.
fn lambda_type_in(
    base: &TermTables,
    own: &mut TermTables,
    t: TypeId,
    b: TermId,
) -> Result<TypeId, AllocError>
    requires lawful { IsTermStore (joined base.now own.old) }
    requires ty { HasType (joined base.now own.old).types t }
    requires body { HasTerm (joined base.now own.old) b }
    ensures there { IfOk result (λ u. HasType (joined base.now own.new).types u) }
    ensures tree { IfOk result (λ u. type_tree (joined base.now own.new).types u ≡ FunTy (type_tree (joined base.now own.old).types t) (ty_of (term_tree (joined base.now own.old) b))) }
    ensures lawful { IsTermStore (joined base.now own.new) }
    ensures grows { GrowsTo (joined base.now own.old) (joined base.now own.new) }
    ensures nodes { own.new.nodes ≡ own.old.nodes }
{
    let to = ty_in(base, own, b);
    let u = plain_type_in(base, own, TypeNode::Fun(t, to))?;
    Ok(u)
}

/// What an application gives, where it fits.
fn applied(base: &TermTables, own: &TermTables, f: TermId, x: TermId) -> Option<TypeId>
    requires lawful { IsTermStore (joined base.now own.now) }
    requires function { HasTerm (joined base.now own.now) f }
    requires argument { HasTerm (joined base.now own.now) x }
    ensures unfit { IfNone result (Applies (joined base.now own.now) f x → ⊥) }
    ensures fit { IfSome result (λ t. Applies (joined base.now own.now) f x) }
    ensures there { IfSome result (λ t. HasType (joined base.now own.now).types t) }
    ensures ty { IfSome result (λ t. type_tree (joined base.now own.now).types t ≡ result_ty (ty_of (term_tree (joined base.now own.now) f))) }
{
    let argument = ty_in(base, own, x);
    let function = ty_in(base, own, f);
    match type_node_in(base, own, function) {
        TypeNode::Fun(from, to) => { if *from == argument { Some(*to) } else { None } }
        _ => None,
    }
}

/// The type of a typed node.
pub(crate) fn type_of_in(
    base: &TermTables,
    own: &mut TermTables,
    node: Node,
) -> Result<TypeId, AllocError>
    requires lawful { IsTermStore (joined base.now own.old) }
    requires parts { HasParts (joined base.now own.old) node }
    requires typed { Typed (tree_of (joined base.now own.old) node) }
    ensures there { IfOk result (λ t. HasType (joined base.now own.new).types t) }
    ensures ty { IfOk result (λ t. type_tree (joined base.now own.new).types t ≡ ty_of (tree_of (joined base.now own.old) node)) }
    ensures lawful { IsTermStore (joined base.now own.new) }
    ensures grows { GrowsTo (joined base.now own.old) (joined base.now own.new) }
    ensures nodes { own.new.nodes ≡ own.old.nodes }
{
    match node {
        Node::Free(_, _, t) => Ok(t),
        Node::Bound(_, t) => Ok(t),
        Node::Const(_, t) => Ok(t),
        Node::Num(_) => {
            let t = plain_type_in(base, own, TypeNode::Int)?;
            Ok(t)
        }
        Node::App(f, x) => match applied(base, own, f, x) {
            Some(t) => Ok(t),
            None => unreachable!(),
        },
        Node::Lam(t, b) => {
            let u = lambda_type_in(base, own, t, b)?;
            Ok(u)
        }
    }
}

/// The type of a node, where it is typed.
pub(crate) fn typed_in(
    base: &TermTables,
    own: &mut TermTables,
    node: Node,
) -> Result<TypeId, TermFault>
    requires lawful { IsTermStore (joined base.now own.old) }
    requires parts { HasParts (joined base.now own.old) node }
    ensures typed { OnOk result (Typed (tree_of (joined base.now own.old) node)) }
    ensures ill { IfErr result (λ e. e ≡ TermFault.Ill → Typed (tree_of (joined base.now own.old) node) → ⊥) }
    ensures refused { IfErr result (λ e. e ≡ TermFault.Ill → own.new ≡ own.old) }
    ensures there { IfOk result (λ t. HasType (joined base.now own.new).types t) }
    ensures ty { IfOk result (λ t. type_tree (joined base.now own.new).types t ≡ ty_of (tree_of (joined base.now own.old) node)) }
    ensures lawful { IsTermStore (joined base.now own.new) }
    ensures grows { GrowsTo (joined base.now own.old) (joined base.now own.new) }
    ensures nodes { own.new.nodes ≡ own.old.nodes }
{
    match node {
        Node::Free(_, _, t) => Ok(t),
        Node::Bound(_, t) => Ok(t),
        Node::Const(_, t) => Ok(t),
        Node::Num(z) => {
            if z == i128::MIN {
                return Err(TermFault::Ill);
            }
            let t = plain_type_in(base, own, TypeNode::Int)?;
            Ok(t)
        }
        Node::App(f, x) => match applied(base, own, f, x) {
            Some(t) => Ok(t),
            None => Err(TermFault::Ill),
        },
        Node::Lam(t, b) => {
            if !bounds_fit(base, own, b, t)? {
                return Err(TermFault::Ill);
            }
            let u = lambda_type_in(base, own, t, b)?;
            Ok(u)
        }
    }
}

/// How far the loose Bounds of a node reach. A Bound of the greatest index has no number of 32 bits for that, and it
/// would stand below more binders than a store has numbers for.
pub(crate) fn node_reach_in(
    base: &TermTables,
    own: &TermTables,
    node: Node,
) -> Result<u32, AllocError>
    requires lawful { IsTermStore (joined base.now own.now) }
    requires parts { HasParts (joined base.now own.now) node }
    ensures { IfOk result (λ r. r ≡ reach_of (tree_of (joined base.now own.now) node)) }
{
    match node {
        Node::Bound(index, _) => {
            if index == u32::MAX {
                return Err(AllocError);
            }
            Ok(index + 1)
        }
        Node::App(f, x) => {
            let left = reach_in(base, own, f);
            let right = reach_in(base, own, x);
            Ok(left.max(right))
        }
        Node::Lam(_, b) => Ok(reach_in(base, own, b).saturating_sub(1)),
        Node::Free(_, _, _) => Ok(0),
        Node::Const(_, _) => Ok(0),
        Node::Num(_) => Ok(0),
    }
}
