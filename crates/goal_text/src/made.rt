//! Terms and types that can't be wrong.
ghost use Rattle.std.specs.Prelude.{IfOk, Ok};
ghost use Rattle.hol_types.specs.TypeStore.{HasArity, HasType, HasTypeParts, type_tree};
ghost use Rattle.hol_types.specs.TypeStore as types;
ghost use Rattle.hol_terms.specs.Term.{AppTm, ConstTm, Typed};
ghost use Rattle.hol_terms.specs.TermStore.{Keeps, Applies, HasParts, HasTerm, term_tree, tree_of};
ghost use Rattle.goal_text.specs.Read.{Gives};

use crate::fault::GoalFailure;
use hol_terms::{Base, Node, TermId, Terms};
use hol_types::{TypeFault, TypeId, TypeNode};

/// The number of a typed term.
pub fn typed(base: &mut Base, node: Node) -> Result<TermId, GoalFailure>
    requires parts { HasParts base.old node }
    requires typed { Typed (tree_of base.old node) }
    ensures read { Gives (term_tree base.new) result (Ok (tree_of base.old node)) }
    ensures there { IfOk result (HasTerm base.new) }
    ensures keeps { Keeps base.old base.new }
{
    let t = base.make(node)?;
    Ok(t)
}

/// The number of a type whose constructor has its arguments.
pub fn type_of(base: &mut Base, node: TypeNode) -> Result<TypeId, GoalFailure>
    requires parts { HasTypeParts base.old.types node }
    requires arity { HasArity base.old.types node }
    ensures read { Gives (type_tree base.new.types) result (Ok (types.tree_of base.old.types node)) }
    ensures there { IfOk result (HasType base.new.types) }
    ensures keeps { Keeps base.old base.new }
{
    match base.intern_type(node) {
        Ok(t) => Ok(t),
        Err(TypeFault::Memory) => Err(GoalFailure::Memory),
        Err(TypeFault::Arity) => unreachable!(),
    }
}

/// The constant of a name and a type.
#[tactic(auto, using(hol_terms::proofs::KeepsLemmas::keeps_trans))]
pub fn constant(base: &mut Base, name: &[u8], ty: TypeId) -> Result<TermId, GoalFailure>
    requires { HasType base.old.types ty }
    ensures read { Gives (term_tree base.new) result (Ok (ConstTm name.now (type_tree base.old.types ty))) }
    ensures there { IfOk result (HasTerm base.new) }
    ensures keeps { Keeps base.old base.new }
{
    let number = base.name(name)?;
    let t = typed(base, Node::Const(number, ty))?;
    Ok(t)
}

/// A function applied to an argument that it takes.
pub fn apply(base: &mut Base, f: TermId, x: TermId) -> Result<TermId, GoalFailure>
    requires function { HasTerm base.old f }
    requires argument { HasTerm base.old x }
    requires fits { Applies base.old f x }
    ensures read { Gives (term_tree base.new) result (Ok (AppTm (term_tree base.old f) (term_tree base.old x))) }
    ensures there { IfOk result (HasTerm base.new) }
    ensures keeps { Keeps base.old base.new }
{
    let _function = base.ty(f);
    let _argument = base.ty(x);
    let t = typed(base, Node::App(f, x))?;
    Ok(t)
}
