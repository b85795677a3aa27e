//! The constants of type Bool of a problem.
ghost use Rattle.std.specs.Prelude.{◌≡◌, [], IfErr, IfOk, OnOk};
ghost use Rattle.std.specs.List.{AllByRecursion};
ghost use Rattle.hol_types.specs.Ty.{BoolTy};
ghost use Rattle.hol_types.specs.TyEq.{ty_eq};
ghost use Rattle.hol_types.specs.TypeStore.{HasType, text_of, type_tree};
ghost use Rattle.hol_terms.specs.TermStore.{Keeps};
ghost use Rattle.goal_text.specs.ItemsIn.{HasDeclared, declared_in};
ghost use Rattle.first_form.specs.Lexicon.{IsLexicon, names_of};
ghost use Rattle.first_form.specs.Source.{with_proposition, with_propositions};

use crate::failure::FormFailure;
use crate::lexicon::Lexicon;
use goal_text::Declared;
use hol_terms::{Base, Terms};
use hol_types::{TypeId, TypeNode};

/// Whether a type is Bool.
fn is_bool(base: &Base, ty: TypeId) -> bool
    requires { HasType base.now.types ty }
    ensures { result ≡ ty_eq BoolTy (type_tree base.now.types ty) }
{
    match base.type_node(ty) {
        TypeNode::Bool => true,
        TypeNode::Int => false,
        TypeNode::Var(_) => false,
        TypeNode::Fun(_, _) => false,
        TypeNode::Cons(_, _) => false,
    }
}

/// Adds a constant, where it is of type Bool and its name is new.
fn add_constant(
    base: &mut Base,
    lexicon: &mut Lexicon,
    declared: Declared,
) -> Result<(), FormFailure>
    requires lexicon { IsLexicon base.old lexicon.old }
    requires declared { HasDeclared base.old declared }
    ensures lexicon { OnOk result (IsLexicon base.new lexicon.new) }
    ensures names { OnOk result (names_of lexicon.new.constants ≡ with_proposition (names_of lexicon.old.constants) (text_of base.old.types declared.name, type_tree base.old.types declared.ty)) }
    ensures memory { IfErr result (λ e. e ≡ FormFailure.Memory) }
    ensures keeps { Keeps base.old base.new }
{
    if !is_bool(base, declared.ty) {
        return Ok(());
    }
    if lexicon.is_declared(base.text(declared.name)) {
        return Ok(());
    }
    lexicon.declare(base, declared)
}

/// The constants of type Bool, of each name the first.
#[tactic(auto, using(hol_terms::proofs::KeepsLemmas::keeps_trans))]
pub fn lexicon_of(base: &mut Base, consts: &[Declared]) -> Result<Lexicon, FormFailure>
    requires { AllByRecursion (HasDeclared base.old) consts.now }
    ensures lexicon { IfOk result (IsLexicon base.new) }
    ensures names { IfOk result (λ l. names_of l.constants ≡ with_propositions [] (declared_in base.old consts.now)) }
    ensures memory { IfErr result (λ e. e ≡ FormFailure.Memory) }
    ensures keeps { Keeps base.old base.new }
{
    let mut lexicon = Lexicon::new(base)?;
    for declared in consts {
        add_constant(base, &mut lexicon, *declared)?;
    }
    Ok(lexicon)
}
