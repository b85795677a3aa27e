//! Whether types of two stores are the same.
ghost use Rattle.std.specs.Prelude.{◌≡◌, ℕ, List, ◌↔◌, ◌<◌, ◌*◌, IfOk, OnOk, IfSome, IsTrue, None, length};
ghost use Rattle.std.specs.List.{AllByRecursion};
ghost use Rattle.hol_types.specs.Ty.{Ty, Tys, BoolTy, IntTy, FunTy, ConsTy, VarTy};
ghost use Rattle.hol_types.specs.TypeStore.{HasName, HasType, text_of, trees_at, type_tree};
ghost use Rattle.hol_match.specs.Matching.{AllSame};

use hol_terms::Terms;
use hol_types::{NameId, TypeId, TypeNode};
use std::alloc::AllocError;
use std::collections::HashMap;

/// Types of the one store that are known, each with its number in the other.
pub(crate) type SameTypes = HashMap<TypeId, TypeId>;

/// Whether two names have the same bytes.
pub(crate) fn is_same_name<P: Terms, S: Terms>(
    patterns: &P,
    terms: &S,
    n: NameId,
    m: NameId,
) -> bool
    requires pattern { HasName (P.store patterns.now).types n }
    requires term { HasName (S.store terms.now).types m }
    ensures { IsTrue result ↔ (text_of (P.store patterns.now).types n ≡ text_of (S.store terms.now).types m) }
{
    patterns.text(n) == terms.text(m)
}

/// Whether two types have the same tree. It takes one step for each distinct part that isn't known yet.
#[cycle(same_types)]
pub(crate) fn is_same_type<P: Terms, S: Terms>(
    patterns: &P,
    terms: &S,
    known: &mut SameTypes,
    a: TypeId,
    t: TypeId,
) -> Result<bool, AllocError>
    requires pattern { HasType (P.store patterns.now).types a }
    requires term { HasType (S.store terms.now).types t }
    requires known { AllSame (P.store patterns.now).types (S.store terms.now).types known.old }
    ensures same { IfOk result (λ r. IsTrue r ↔ (type_tree (P.store patterns.now).types a ≡ type_tree (S.store terms.now).types t)) }
    ensures known { OnOk result (AllSame (P.store patterns.now).types (S.store terms.now).types known.new) }
{
    let met = known.get(&a).copied();
    match met {
        Some(u) => {
            let _apart = terms.type_node(t);
            Ok(u == t)
        }
        None => {
            let same = is_same_node(patterns, terms, known, a, t)?;
            if same {
                known.insert(a, t)?;
                return Ok(true);
            }
            Ok(false)
        }
    }
}

/// The two sides of a function type.
fn function_sides<S: Terms>(terms: &S, t: TypeId) -> Option<(TypeId, TypeId)>
    requires { HasType (S.store terms.now).types t }
    ensures there { IfSome result (λ p. HasType (S.store terms.now).types p.0 × HasType (S.store terms.now).types p.1) }
    ensures sides { IfSome result (λ p. type_tree (S.store terms.now).types t ≡ FunTy (type_tree (S.store terms.now).types p.0) (type_tree (S.store terms.now).types p.1)) }
    ensures other { result ≡ None → (a b : Ty) → type_tree (S.store terms.now).types t ≡ FunTy a b → ⊥ }
{
    match terms.type_node(t) {
        TypeNode::Fun(a, b) => Some((*a, *b)),
        TypeNode::Bool => None,
        TypeNode::Int => None,
        TypeNode::Var(_) => None,
        TypeNode::Cons(_, _) => None,
    }
}

/// The name of a type variable.
fn variable_name<S: Terms>(terms: &S, t: TypeId) -> Option<NameId>
    requires { HasType (S.store terms.now).types t }
    ensures there { IfSome result (λ n. HasName (S.store terms.now).types n) }
    ensures name { IfSome result (λ n. type_tree (S.store terms.now).types t ≡ VarTy (text_of (S.store terms.now).types n)) }
    ensures other { result ≡ None → (n : List ℕ) → type_tree (S.store terms.now).types t ≡ VarTy n → ⊥ }
{
    match terms.type_node(t) {
        TypeNode::Var(n) => Some(*n),
        TypeNode::Bool => None,
        TypeNode::Int => None,
        TypeNode::Fun(_, _) => None,
        TypeNode::Cons(_, _) => None,
    }
}

/// The constructor of a type, with its arguments.
fn constructor<S: Terms>(terms: &S, t: TypeId) -> Option<(NameId, &[TypeId])>
    requires { HasType (S.store terms.now).types t }
    ensures name { IfSome result (λ p. HasName (S.store terms.now).types p.0) }
    ensures there { IfSome result (λ p. AllByRecursion (λ u. HasType (S.store terms.now).types u) p.1.now) }
    ensures tree { IfSome result (λ p. type_tree (S.store terms.now).types t ≡ ConsTy (text_of (S.store terms.now).types p.0) (trees_at (S.store terms.now).types p.1.now)) }
    ensures other { result ≡ None → (n : List ℕ) (us : Tys) → type_tree (S.store terms.now).types t ≡ ConsTy n us → ⊥ }
{
    match terms.type_node(t) {
        TypeNode::Cons(n, us) => Some((*n, us.as_slice())),
        TypeNode::Bool => None,
        TypeNode::Int => None,
        TypeNode::Var(_) => None,
        TypeNode::Fun(_, _) => None,
    }
}

/// Whether a type is Bool.
fn is_bool<S: Terms>(terms: &S, t: TypeId) -> bool
    requires { HasType (S.store terms.now).types t }
    ensures { IsTrue result ↔ (type_tree (S.store terms.now).types t ≡ BoolTy) }
{
    match terms.type_node(t) {
        TypeNode::Bool => true,
        TypeNode::Int => false,
        TypeNode::Var(_) => false,
        TypeNode::Fun(_, _) => false,
        TypeNode::Cons(_, _) => false,
    }
}

/// Whether a type is Int.
fn is_int<S: Terms>(terms: &S, t: TypeId) -> bool
    requires { HasType (S.store terms.now).types t }
    ensures { IsTrue result ↔ (type_tree (S.store terms.now).types t ≡ IntTy) }
{
    match terms.type_node(t) {
        TypeNode::Int => true,
        TypeNode::Bool => false,
        TypeNode::Var(_) => false,
        TypeNode::Fun(_, _) => false,
        TypeNode::Cons(_, _) => false,
    }
}

/// The same as `is_same_type`, by the type's node.
#[cycle(same_types)]
fn is_same_node<P: Terms, S: Terms>(
    patterns: &P,
    terms: &S,
    known: &mut SameTypes,
    a: TypeId,
    t: TypeId,
) -> Result<bool, AllocError>
    requires pattern { HasType (P.store patterns.now).types a }
    requires term { HasType (S.store terms.now).types t }
    requires known { AllSame (P.store patterns.now).types (S.store terms.now).types known.old }
    ensures same { IfOk result (λ r. IsTrue r ↔ (type_tree (P.store patterns.now).types a ≡ type_tree (S.store terms.now).types t)) }
    ensures known { OnOk result (AllSame (P.store patterns.now).types (S.store terms.now).types known.new) }
{
    match patterns.type_node(a) {
        TypeNode::Bool => Ok(is_bool(terms, t)),
        TypeNode::Int => Ok(is_int(terms, t)),
        TypeNode::Var(n) => {
            match variable_name(terms, t) {
                None => Ok(false),
                Some(m) => Ok(is_same_name(patterns, terms, *n, m)),
            }
        }
        TypeNode::Fun(from, to) => {
            match function_sides(terms, t) {
                None => Ok(false),
                Some(sides) => {
                    let left = is_same_type(patterns, terms, known, *from, sides.0)?;
                    if left {
                        let right = is_same_type(patterns, terms, known, *to, sides.1)?;
                        return Ok(right);
                    }
                    Ok(false)
                }
            }
        }
        TypeNode::Cons(n, ps) => {
            match constructor(terms, t) {
                None => Ok(false),
                Some(other) => {
                    if !is_same_name(patterns, terms, *n, other.0) {
                        return Ok(false);
                    }
                    if ps.len() != other.1.len() {
                        return Ok(false);
                    }
                    let same = are_same_types(patterns, terms, known, a, ps.as_slice(), other.1)?;
                    Ok(same)
                }
            }
        }
    }
}

/// Whether the types of two lists of one length have the same trees, each its own. The first list's stand below a number.
#[cycle(same_types)]
fn are_same_types<P: Terms, S: Terms>(
    patterns: &P,
    terms: &S,
    known: &mut SameTypes,
    above: TypeId,
    ps: &[TypeId],
    ts: &[TypeId],
) -> Result<bool, AllocError>
    requires above { HasType (P.store patterns.now).types above }
    requires below { AllByRecursion (λ p. p < above) ps.now }
    requires there { AllByRecursion (λ t. HasType (S.store terms.now).types t) ts.now }
    requires count { length ps.now ≡ length ts.now }
    requires known { AllSame (P.store patterns.now).types (S.store terms.now).types known.old }
    ensures same { IfOk result (λ r. IsTrue r ↔ (trees_at (P.store patterns.now).types ps.now ≡ trees_at (S.store terms.now).types ts.now)) }
    ensures known { OnOk result (AllSame (P.store patterns.now).types (S.store terms.now).types known.new) }
{
    for i in 0..ps.len() {
        let p = ps[i];
        let t = ts[i];
        let same = is_same_type(patterns, terms, known, p, t)?;
        if !same {
            return Ok(false);
        }
    }
    Ok(true)
}
