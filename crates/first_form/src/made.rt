//! Terms and types that can't be wrong.
ghost use Rattle.std.specs.Prelude.{IfOk, Some};
ghost use Rattle.hol_types.specs.TypeStore.{HasArity, HasType, HasTypeParts, type_tree};
ghost use Rattle.hol_types.specs.TypeStore as types;
ghost use Rattle.hol_terms.specs.Term.{ConstTm, Typed};
ghost use Rattle.hol_terms.specs.TermStore.{Keeps, HasParts, HasTerm, term_tree, tree_of};
ghost use Rattle.first_form.specs.Read.{Gives};

use crate::failure::FormFailure;
use hol_terms::{Base, Node, TermFault, TermId, Terms};
use hol_types::{TypeFault, TypeId, TypeNode};

/// The number of a typed term.
pub fn typed(base: &mut Base, node: Node) -> Result<TermId, FormFailure>
    requires parts { HasParts base.old node }
    requires typed { Typed (tree_of base.old node) }
    ensures read { Gives (term_tree base.new) result (Some (tree_of base.old node)) }
    ensures there { IfOk result (HasTerm base.new) }
    ensures keeps { Keeps base.old base.new }
{
    match base.intern(node) {
        Ok(t) => Ok(t),
        Err(TermFault::Memory) => Err(FormFailure::Memory),
        Err(TermFault::Ill) => unreachable!(),
    }
}

/// The number of a type whose constructor has its arguments.
pub fn type_of(base: &mut Base, node: TypeNode) -> Result<TypeId, FormFailure>
    requires parts { HasTypeParts base.old.types node }
    requires arity { HasArity base.old.types node }
    ensures read { Gives (type_tree base.new.types) result (Some (types.tree_of base.old.types node)) }
    ensures there { IfOk result (HasType base.new.types) }
    ensures keeps { Keeps base.old base.new }
{
    match base.intern_type(node) {
        Ok(t) => Ok(t),
        Err(TypeFault::Memory) => Err(FormFailure::Memory),
        Err(TypeFault::Arity) => unreachable!(),
    }
}

/// The constant of a name and a type.
#[tactic(auto, using(hol_terms::proofs::KeepsLemmas::keeps_trans))]
pub fn constant(base: &mut Base, name: &[u8], ty: TypeId) -> Result<TermId, FormFailure>
    requires { HasType base.old.types ty }
    ensures read { Gives (term_tree base.new) result (Some (ConstTm name.now (type_tree base.old.types ty))) }
    ensures there { IfOk result (HasTerm base.new) }
    ensures keeps { Keeps base.old base.new }
{
    let number = base.name(name)?;
    let t = typed(base, Node::Const(number, ty))?;
    Ok(t)
}
