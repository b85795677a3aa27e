//! Formulas in any store of terms: HOL's constants by number, and what is made of them.
ghost use Rattle.std.specs.Prelude.{◌≡◌, ◌↔◌, IsTrue, IfOk, IfSome, IfNone};
ghost use Rattle.hol_types.specs.Ty.{BoolTy, FunTy};
ghost use Rattle.hol_types.specs.TypeStore.{HasType, HasTypeParts, HasArity, type_tree};
ghost use Rattle.hol_types.specs.TypeStore as types;
ghost use Rattle.hol_terms.specs.Term.{Term, ConstTm, AppTm, Typed, ty_of, result_ty};
ghost use Rattle.hol_terms.specs.TermStore.{HasTerm, Keeps, TermsApart, term_tree};
ghost use Rattle.hol_terms.specs.Constants.{false_tm, FunTy2, apply_two, implication, conjunction, disjunction, negation};
ghost use Rattle.hol_formulas.specs.Constants.{IsAt, IsType, AreNames, AreConstants, Takes};

use hol_terms::{Node, TermId, Terms, make};
use hol_types::{NameId, TypeFault, TypeId, TypeNode};
use std::alloc::AllocError;

/// The numbers of HOL's constants in a store.
#[derive(Clone, Copy, Debug)]
pub struct Constants {
    /// `=>`
    pub imp: TermId,
    /// `not`
    pub not: TermId,
    /// `false`
    pub falsity: TermId,
    /// `true`
    pub truth: TermId,
    /// `and`
    pub and: TermId,
    /// `or`
    pub or: TermId,
    /// The type Bool.
    pub bool: TypeId,
    /// The names of the constants that have many types.
    pub names: Names,
}

/// The names of HOL's constants that have many types.
#[derive(Clone, Copy, Debug)]
pub struct Names {
    /// `eq`
    pub eq: NameId,
    /// `ite`
    pub ite: NameId,
    /// `all`
    pub all: NameId,
    /// `ex`
    pub ex: NameId,
    /// `choice`
    pub choice: NameId,
}

/// The two sides of an implication, a conjunction, a disjunction or an equation.
#[derive(Clone, Copy, Debug)]
pub struct Sides {
    pub left: TermId,
    pub right: TermId,
}

/// The number of a type whose constructors are declared with these numbers of arguments.
fn known_type<S: Terms>(store: &mut S, node: TypeNode) -> Result<TypeId, AllocError>
    requires there { HasTypeParts (S.store store.old).types node }
    requires has_arity { HasArity (S.store store.old).types node }
    ensures there { IfOk result (λ t. HasType (S.store store.new).types t) }
    ensures tree { IfOk result (λ t. type_tree (S.store store.new).types t ≡ types.tree_of (S.store store.old).types node) }
    ensures keeps { Keeps (S.store store.old) (S.store store.new) }
    ensures rest { S.rest store.new ≡ S.rest store.old }
{
    match store.intern_type(node) {
        Ok(t) => Ok(t),
        Err(TypeFault::Memory) => Err(AllocError),
        Err(TypeFault::Arity) => unreachable!(),
    }
}

/// A constant of a type.
#[tactic(auto, using(hol_terms::proofs::KeepsLemmas::keeps_trans))]
fn constant<S: Terms>(store: &mut S, text: &[u8], ty: TypeId) -> Result<TermId, AllocError>
    requires { HasType (S.store store.old).types ty }
    ensures there { IfOk result (λ t. HasTerm (S.store store.new) t) }
    ensures tree { IfOk result (λ t. term_tree (S.store store.new) t ≡ ConstTm text.now (type_tree (S.store store.old).types ty)) }
    ensures keeps { Keeps (S.store store.old) (S.store store.new) }
    ensures rest { S.rest store.new ≡ S.rest store.old }
{
    let name = store.name(text)?;
    let t = make(store, Node::Const(name, ty))?;
    Ok(t)
}

/// The type of functions from one type to another.
pub fn function_type<S: Terms>(
    store: &mut S,
    from: TypeId,
    to: TypeId,
) -> Result<TypeId, AllocError>
    requires from { HasType (S.store store.old).types from }
    requires to { HasType (S.store store.old).types to }
    ensures is { IfOk result (λ t. IsType (S.store store.new) t (FunTy (type_tree (S.store store.old).types from) (type_tree (S.store store.old).types to))) }
    ensures keeps { Keeps (S.store store.old) (S.store store.new) }
    ensures rest { S.rest store.new ≡ S.rest store.old }
{
    let t = known_type(store, TypeNode::Fun(from, to))?;
    Ok(t)
}

/// The type Bool.
fn bool_type<S: Terms>(store: &mut S) -> Result<TypeId, AllocError>
    ensures is { IfOk result (λ t. IsType (S.store store.new) t BoolTy) }
    ensures keeps { Keeps (S.store store.old) (S.store store.new) }
    ensures rest { S.rest store.new ≡ S.rest store.old }
{
    let t = known_type(store, TypeNode::Bool)?;
    Ok(t)
}

/// A constant of type Bool.
#[tactic(auto, using(hol_terms::proofs::KeepsLemmas::keeps_trans))]
fn truth_value<S: Terms>(store: &mut S, text: &[u8], bool: TypeId) -> Result<TermId, AllocError>
    requires { IsType (S.store store.old) bool BoolTy }
    ensures is { IfOk result (λ t. IsAt (S.store store.new) t (ConstTm text.now BoolTy)) }
    ensures keeps { Keeps (S.store store.old) (S.store store.new) }
    ensures rest { S.rest store.new ≡ S.rest store.old }
{
    let t = constant(store, text, bool)?;
    Ok(t)
}

/// A constant that takes a truth value to a truth value.
#[tactic(auto, using(hol_terms::proofs::KeepsLemmas::keeps_trans))]
fn unary<S: Terms>(store: &mut S, text: &[u8], bool: TypeId) -> Result<TermId, AllocError>
    requires { IsType (S.store store.old) bool BoolTy }
    ensures is { IfOk result (λ t. IsAt (S.store store.new) t (ConstTm text.now (FunTy BoolTy BoolTy))) }
    ensures keeps { Keeps (S.store store.old) (S.store store.new) }
    ensures rest { S.rest store.new ≡ S.rest store.old }
{
    let ty = function_type(store, bool, bool)?;
    let t = constant(store, text, ty)?;
    Ok(t)
}

/// A constant that takes two truth values to a truth value.
#[tactic(auto, using(hol_terms::proofs::KeepsLemmas::keeps_trans))]
fn binary<S: Terms>(store: &mut S, text: &[u8], bool: TypeId) -> Result<TermId, AllocError>
    requires { IsType (S.store store.old) bool BoolTy }
    ensures is { IfOk result (λ t. IsAt (S.store store.new) t (ConstTm text.now (FunTy2 BoolTy BoolTy BoolTy))) }
    ensures keeps { Keeps (S.store store.old) (S.store store.new) }
    ensures rest { S.rest store.new ≡ S.rest store.old }
{
    let unary = function_type(store, bool, bool)?;
    let ty = function_type(store, bool, unary)?;
    let t = constant(store, text, ty)?;
    Ok(t)
}

impl Names {
    /// The names' numbers in a store, to which those that it lacks are added.
    #[tactic(auto, using(hol_terms::proofs::KeepsLemmas::keeps_trans))]
    fn new<S: Terms>(store: &mut S) -> Result<Names, AllocError>
        ensures are { IfOk result (λ n. AreNames (S.store store.new) n) }
        ensures keeps { Keeps (S.store store.old) (S.store store.new) }
        ensures rest { S.rest store.new ≡ S.rest store.old }
    {
        let eq = store.name(b"eq")?;
        let ite = store.name(b"ite")?;
        let all = store.name(b"all")?;
        let ex = store.name(b"ex")?;
        let choice = store.name(b"choice")?;
        Ok(Names {
            eq,
            ite,
            all,
            ex,
            choice,
        })
    }
}

impl Constants {
    /// The constants' numbers in a store, to which those that it lacks are added.
    #[tactic(auto, using(hol_terms::proofs::KeepsLemmas::keeps_trans))]
    pub fn new<S: Terms>(store: &mut S) -> Result<Constants, AllocError>
        ensures are { IfOk result (λ c. AreConstants (S.store store.new) c) }
        ensures keeps { Keeps (S.store store.old) (S.store store.new) }
        ensures rest { S.rest store.new ≡ S.rest store.old }
    {
        let bool = bool_type(store)?;
        let imp = binary(store, b"=>", bool)?;
        let and = binary(store, b"and", bool)?;
        let or = binary(store, b"or", bool)?;
        let not = unary(store, b"not", bool)?;
        let falsity = truth_value(store, b"false", bool)?;
        let truth = truth_value(store, b"true", bool)?;
        let names = Names::new(store)?;
        Ok(Constants {
            imp,
            not,
            falsity,
            truth,
            and,
            or,
            bool,
            names,
        })
    }
}

/// Whether a term is of type Bool.
pub fn is_bool<S: Terms>(store: &S, t: TermId) -> bool
    requires { HasTerm (S.store store.now) t }
    ensures is { IsTrue result ↔ (ty_of (term_tree (S.store store.now) t) ≡ BoolTy) }
    ensures typed { Typed (term_tree (S.store store.now) t) }
{
    match store.type_node(store.ty(t)) {
        TypeNode::Bool => true,
        TypeNode::Int => false,
        TypeNode::Var(_) => false,
        TypeNode::Fun(_, _) => false,
        TypeNode::Cons(_, _) => false,
    }
}

/// The sides of a term that is a constant applied to two. None exactly where the term isn't of this form.
fn sides_of<S: Terms>(store: &S, head: TermId, t: TermId) -> Option<Sides>
    requires head { HasTerm (S.store store.now) head }
    requires there { HasTerm (S.store store.now) t }
    ensures none { IfNone result ((a b : Term) → term_tree (S.store store.now) t ≡ apply_two (term_tree (S.store store.now) head) a b → ⊥) }
    ensures left { IfSome result (λ p. HasTerm (S.store store.now) p.left) }
    ensures right { IfSome result (λ p. HasTerm (S.store store.now) p.right) }
    ensures some { IfSome result (λ p. term_tree (S.store store.now) t ≡ apply_two (term_tree (S.store store.now) head) (term_tree (S.store store.now) p.left) (term_tree (S.store store.now) p.right)) }
    ensures apart { TermsApart (S.store store.now) }
{
    let Node::App(f, right) = store.node(t) else {
        return None;
    };
    let Node::App(first, left) = store.node(f) else {
        return None;
    };
    if first == head {
        Some(Sides { left, right })
    } else {
        None
    }
}

/// An implication's sides. None exactly where the term isn't an implication.
pub fn imp_parts<S: Terms>(store: &S, constants: Constants, t: TermId) -> Option<Sides>
    requires constants { AreConstants (S.store store.now) constants }
    requires there { HasTerm (S.store store.now) t }
    ensures none { IfNone result ((a b : Term) → term_tree (S.store store.now) t ≡ implication a b → ⊥) }
    ensures left { IfSome result (λ p. HasTerm (S.store store.now) p.left) }
    ensures right { IfSome result (λ p. HasTerm (S.store store.now) p.right) }
    ensures some { IfSome result (λ p. term_tree (S.store store.now) t ≡ implication (term_tree (S.store store.now) p.left) (term_tree (S.store store.now) p.right)) }
    ensures apart { TermsApart (S.store store.now) }
{
    sides_of(store, constants.imp, t)
}

/// A conjunction's sides. None exactly where the term isn't a conjunction.
pub fn and_parts<S: Terms>(store: &S, constants: Constants, t: TermId) -> Option<Sides>
    requires constants { AreConstants (S.store store.now) constants }
    requires there { HasTerm (S.store store.now) t }
    ensures none { IfNone result ((a b : Term) → term_tree (S.store store.now) t ≡ conjunction a b → ⊥) }
    ensures left { IfSome result (λ p. HasTerm (S.store store.now) p.left) }
    ensures right { IfSome result (λ p. HasTerm (S.store store.now) p.right) }
    ensures some { IfSome result (λ p. term_tree (S.store store.now) t ≡ conjunction (term_tree (S.store store.now) p.left) (term_tree (S.store store.now) p.right)) }
    ensures apart { TermsApart (S.store store.now) }
{
    sides_of(store, constants.and, t)
}

/// A disjunction's sides. None exactly where the term isn't a disjunction.
pub fn or_parts<S: Terms>(store: &S, constants: Constants, t: TermId) -> Option<Sides>
    requires constants { AreConstants (S.store store.now) constants }
    requires there { HasTerm (S.store store.now) t }
    ensures none { IfNone result ((a b : Term) → term_tree (S.store store.now) t ≡ disjunction a b → ⊥) }
    ensures left { IfSome result (λ p. HasTerm (S.store store.now) p.left) }
    ensures right { IfSome result (λ p. HasTerm (S.store store.now) p.right) }
    ensures some { IfSome result (λ p. term_tree (S.store store.now) t ≡ disjunction (term_tree (S.store store.now) p.left) (term_tree (S.store store.now) p.right)) }
    ensures apart { TermsApart (S.store store.now) }
{
    sides_of(store, constants.or, t)
}

/// What a negation negates. None exactly where the term isn't a negation.
pub fn not_part<S: Terms>(store: &S, constants: Constants, t: TermId) -> Option<TermId>
    requires constants { AreConstants (S.store store.now) constants }
    requires there { HasTerm (S.store store.now) t }
    ensures none { IfNone result ((a : Term) → term_tree (S.store store.now) t ≡ negation a → ⊥) }
    ensures there { IfSome result (λ a. HasTerm (S.store store.now) a) }
    ensures some { IfSome result (λ a. term_tree (S.store store.now) t ≡ negation (term_tree (S.store store.now) a)) }
    ensures apart { TermsApart (S.store store.now) }
{
    let Node::App(head, a) = store.node(t) else {
        return None;
    };
    if head == constants.not { Some(a) } else { None }
}

/// Whether a term is `false`.
pub fn is_false<S: Terms>(store: &S, constants: Constants, t: TermId) -> bool
    requires constants { AreConstants (S.store store.now) constants }
    requires there { HasTerm (S.store store.now) t }
    ensures { IsTrue result ↔ (term_tree (S.store store.now) t ≡ false_tm) }
{
    let _node = store.node(t);
    t == constants.falsity
}

/// A constant applied to two.
#[tactic(auto, using(hol_terms::proofs::KeepsLemmas::keeps_trans))]
pub fn applied_to_two<S: Terms>(
    store: &mut S,
    head: TermId,
    a: TermId,
    b: TermId,
) -> Result<TermId, AllocError>
    requires head { HasTerm (S.store store.old) head }
    requires left { HasTerm (S.store store.old) a }
    requires right { HasTerm (S.store store.old) b }
    requires fits { Takes (term_tree (S.store store.old) head) (term_tree (S.store store.old) a) (term_tree (S.store store.old) b) }
    ensures there { IfOk result (λ t. HasTerm (S.store store.new) t) }
    ensures tree { IfOk result (λ t. term_tree (S.store store.new) t ≡ apply_two (term_tree (S.store store.old) head) (term_tree (S.store store.old) a) (term_tree (S.store store.old) b)) }
    ensures keeps { Keeps (S.store store.old) (S.store store.new) }
    ensures rest { S.rest store.new ≡ S.rest store.old }
{
    let f = apply_fitting(store, head, a)?;
    let t = apply_fitting(store, f, b)?;
    Ok(t)
}

/// The implication of two terms of type Bool.
pub fn make_imp<S: Terms>(
    store: &mut S,
    constants: Constants,
    a: TermId,
    b: TermId,
) -> Result<TermId, AllocError>
    requires constants { AreConstants (S.store store.old) constants }
    requires left { HasTerm (S.store store.old) a }
    requires right { HasTerm (S.store store.old) b }
    requires left_bool { ty_of (term_tree (S.store store.old) a) ≡ BoolTy }
    requires right_bool { ty_of (term_tree (S.store store.old) b) ≡ BoolTy }
    ensures there { IfOk result (λ t. HasTerm (S.store store.new) t) }
    ensures tree { IfOk result (λ t. term_tree (S.store store.new) t ≡ implication (term_tree (S.store store.old) a) (term_tree (S.store store.old) b)) }
    ensures keeps { Keeps (S.store store.old) (S.store store.new) }
    ensures rest { S.rest store.new ≡ S.rest store.old }
{
    let t = applied_to_two(store, constants.imp, a, b)?;
    Ok(t)
}

/// The conjunction of two terms of type Bool.
pub fn make_and<S: Terms>(
    store: &mut S,
    constants: Constants,
    a: TermId,
    b: TermId,
) -> Result<TermId, AllocError>
    requires constants { AreConstants (S.store store.old) constants }
    requires left { HasTerm (S.store store.old) a }
    requires right { HasTerm (S.store store.old) b }
    requires left_bool { ty_of (term_tree (S.store store.old) a) ≡ BoolTy }
    requires right_bool { ty_of (term_tree (S.store store.old) b) ≡ BoolTy }
    ensures there { IfOk result (λ t. HasTerm (S.store store.new) t) }
    ensures tree { IfOk result (λ t. term_tree (S.store store.new) t ≡ conjunction (term_tree (S.store store.old) a) (term_tree (S.store store.old) b)) }
    ensures keeps { Keeps (S.store store.old) (S.store store.new) }
    ensures rest { S.rest store.new ≡ S.rest store.old }
{
    let t = applied_to_two(store, constants.and, a, b)?;
    Ok(t)
}

/// The disjunction of two terms of type Bool.
pub fn make_or<S: Terms>(
    store: &mut S,
    constants: Constants,
    a: TermId,
    b: TermId,
) -> Result<TermId, AllocError>
    requires constants { AreConstants (S.store store.old) constants }
    requires left { HasTerm (S.store store.old) a }
    requires right { HasTerm (S.store store.old) b }
    requires left_bool { ty_of (term_tree (S.store store.old) a) ≡ BoolTy }
    requires right_bool { ty_of (term_tree (S.store store.old) b) ≡ BoolTy }
    ensures there { IfOk result (λ t. HasTerm (S.store store.new) t) }
    ensures tree { IfOk result (λ t. term_tree (S.store store.new) t ≡ disjunction (term_tree (S.store store.old) a) (term_tree (S.store store.old) b)) }
    ensures keeps { Keeps (S.store store.old) (S.store store.new) }
    ensures rest { S.rest store.new ≡ S.rest store.old }
{
    let t = applied_to_two(store, constants.or, a, b)?;
    Ok(t)
}

/// The negation of a term of type Bool.
pub fn make_not<S: Terms>(
    store: &mut S,
    constants: Constants,
    a: TermId,
) -> Result<TermId, AllocError>
    requires constants { AreConstants (S.store store.old) constants }
    requires there { HasTerm (S.store store.old) a }
    requires bool { ty_of (term_tree (S.store store.old) a) ≡ BoolTy }
    ensures there { IfOk result (λ t. HasTerm (S.store store.new) t) }
    ensures tree { IfOk result (λ t. term_tree (S.store store.new) t ≡ negation (term_tree (S.store store.old) a)) }
    ensures keeps { Keeps (S.store store.old) (S.store store.new) }
    ensures rest { S.rest store.new ≡ S.rest store.old }
{
    let t = apply_fitting(store, constants.not, a)?;
    Ok(t)
}

/// One term applied to another, where that fits.
pub fn apply_fitting<S: Terms>(store: &mut S, f: TermId, x: TermId) -> Result<TermId, AllocError>
    requires function { HasTerm (S.store store.old) f }
    requires argument { HasTerm (S.store store.old) x }
    requires fits { ty_of (term_tree (S.store store.old) f) ≡ FunTy (ty_of (term_tree (S.store store.old) x)) (result_ty (ty_of (term_tree (S.store store.old) f))) }
    ensures there { IfOk result (λ t. HasTerm (S.store store.new) t) }
    ensures tree { IfOk result (λ t. term_tree (S.store store.new) t ≡ AppTm (term_tree (S.store store.old) f) (term_tree (S.store store.old) x)) }
    ensures keeps { Keeps (S.store store.old) (S.store store.new) }
    ensures rest { S.rest store.new ≡ S.rest store.old }
{
    let _function = store.node(f);
    let _argument = store.node(x);
    let t = make(store, Node::App(f, x))?;
    Ok(t)
}
