//! Types for the type variables of a pattern that make it a type.
ghost use Rattle.std.specs.Prelude.{◌≡◌, ◌<◌, ◌*◌, IfOk, IfSome, Some, None, true, false, length};
ghost use Rattle.std.specs.List.{AllByRecursion};
ghost use Rattle.hol_types.specs.Ty.{Ty, Tys, FunTy, ConsTy};
ghost use Rattle.hol_types.specs.TypeStore.{IsTypeStore, HasName, HasType, arity_of, joined, text_of, type_tree, trees_at};
ghost use Rattle.hol_types.specs.TypeSubst.{HasSubst, NamesOnce, subst_tree};
ghost use Rattle.hol_types.specs.TypeMatch.{Matches, IsLeast, IsNone, NeverIs};
ghost use Rattle.hol_types.specs.Pairs.{IsAhead};
ghost use Rattle.hol_types.specs.Matching.{IsGiven, IsAnswer, MatchFirst, AllDone};

use crate::instance::{Subst, given};
use crate::list::List;
use crate::node::{NameId, TypeId, TypeNode};
use crate::pairs::deep_pairs;
use crate::tables::{TypeTables, known_node_in};
use std::alloc::{AllocError, Global};
use std::collections::HashMap;

/// The types that parts of the pattern are to be.
type Done = HashMap<TypeId, TypeId>;

/// Whether a variable has the type, which it is given where it has none.
fn match_variable(
    found: &mut Vec<(NameId, TypeId)>,
    n: NameId,
    t: TypeId,
) -> Result<bool, AllocError>
    ensures { IfOk result (λ r. IsGiven n t found.old.items r found.new.items) }
{
    match given(found.as_slice(), n) {
        Some(u) => Ok(u == t),
        None => {
            found.push((n, t))?;
            Ok(true)
        }
    }
}

/// The two sides of a function type.
pub(crate) fn function_sides(
    base: &TypeTables,
    own: &TypeTables,
    t: TypeId,
) -> Option<(TypeId, TypeId)>
    requires lawful { IsTypeStore (joined base.now own.now) }
    requires there { HasType (joined base.now own.now) t }
    ensures there { IfSome result (λ p. HasType (joined base.now own.now) p.0 × HasType (joined base.now own.now) p.1) }
    ensures sides { IfSome result (λ p. type_tree (joined base.now own.now) t ≡ FunTy (type_tree (joined base.now own.now) p.0) (type_tree (joined base.now own.now) p.1)) }
    ensures other { result ≡ None → (a b : Ty) → type_tree (joined base.now own.now) t ≡ FunTy a b → ⊥ }
{
    match known_node_in(base, own, t) {
        TypeNode::Fun(a, b) => Some((*a, *b)),
        TypeNode::Bool => None,
        TypeNode::Int => None,
        TypeNode::Var(_) => None,
        TypeNode::Cons(_, _) => None,
    }
}

/// The arguments of the constructor in a type.
fn constructor_args<'a>(
    base: &'a TypeTables,
    own: &'a TypeTables,
    n: NameId,
    t: TypeId,
) -> Option<&'a [TypeId]>
    requires lawful { IsTypeStore (joined base.now own.now) }
    requires name { HasName (joined base.now own.now) n }
    requires there { HasType (joined base.now own.now) t }
    ensures there { IfSome result (λ us. AllByRecursion (λ u. HasType (joined base.now own.now) u) us.now) }
    ensures args { IfSome result (λ us. type_tree (joined base.now own.now) t ≡ ConsTy (text_of (joined base.now own.now) n) (trees_at (joined base.now own.now) us.now)) }
    ensures count { IfSome result (λ us. arity_of (joined base.now own.now) n ≡ Some (length us.now)) }
    ensures other { result ≡ None → (args : Tys) → type_tree (joined base.now own.now) t ≡ ConsTy (text_of (joined base.now own.now) n) args → ⊥ }
{
    match known_node_in(base, own, t) {
        TypeNode::Cons(m, us) => { if *m == n { Some(us.as_slice()) } else { None } }
        TypeNode::Bool => None,
        TypeNode::Int => None,
        TypeNode::Var(_) => None,
        TypeNode::Fun(_, _) => None,
    }
}

/// Whether the part of the pattern can be the type. Each shared part is looked at once: a part has one type.
#[cycle(matching)]
fn match_part(
    base: &TypeTables,
    own: &TypeTables,
    found: &mut Vec<(NameId, TypeId)>,
    done: &mut Done,
    pattern: TypeId,
    t: TypeId,
) -> Result<bool, AllocError>
    requires lawful { IsTypeStore (joined base.now own.now) }
    requires pattern { HasType (joined base.now own.now) pattern }
    requires there { HasType (joined base.now own.now) t }
    requires found { HasSubst (joined base.now own.now) found.old.items }
    requires done { AllDone (joined base.now own.now) (subst_tree (joined base.now own.now) found.old.items) done.old }
    ensures answer { IfOk result (λ r. IsAnswer (Matches (type_tree (joined base.now own.now) pattern) (type_tree (joined base.now own.now) t)) (subst_tree (joined base.now own.now) found.old.items) (subst_tree (joined base.now own.now) found.new.items) r) }
    ensures found { IfOk result (λ _. HasSubst (joined base.now own.now) found.new.items) }
    ensures once { IfOk result (λ _. NamesOnce found.old.items → NamesOnce found.new.items) }
    ensures done { IfOk result (λ _. AllDone (joined base.now own.now) (subst_tree (joined base.now own.now) found.new.items) done.new) }
{
    let seen = done.get(&pattern).copied();
    match seen {
        Some(u) => Ok(u == t),
        None => {
            let matched = match_node(base, own, found, done, pattern, t)?;
            if matched {
                done.insert(pattern, t)?;
                return Ok(true);
            }
            Ok(false)
        }
    }
}

/// The same, by the part's node.
#[cycle(matching)]
fn match_node(
    base: &TypeTables,
    own: &TypeTables,
    found: &mut Vec<(NameId, TypeId)>,
    done: &mut Done,
    pattern: TypeId,
    t: TypeId,
) -> Result<bool, AllocError>
    requires lawful { IsTypeStore (joined base.now own.now) }
    requires pattern { HasType (joined base.now own.now) pattern }
    requires there { HasType (joined base.now own.now) t }
    requires found { HasSubst (joined base.now own.now) found.old.items }
    requires done { AllDone (joined base.now own.now) (subst_tree (joined base.now own.now) found.old.items) done.old }
    ensures answer { IfOk result (λ r. IsAnswer (Matches (type_tree (joined base.now own.now) pattern) (type_tree (joined base.now own.now) t)) (subst_tree (joined base.now own.now) found.old.items) (subst_tree (joined base.now own.now) found.new.items) r) }
    ensures found { IfOk result (λ _. HasSubst (joined base.now own.now) found.new.items) }
    ensures once { IfOk result (λ _. NamesOnce found.old.items → NamesOnce found.new.items) }
    ensures done { IfOk result (λ _. AllDone (joined base.now own.now) (subst_tree (joined base.now own.now) found.new.items) done.new) }
{
    match known_node_in(base, own, pattern) {
        TypeNode::Bool => Ok(pattern == t),
        TypeNode::Int => Ok(pattern == t),
        TypeNode::Var(n) => {
            let matched = match_variable(found, *n, t)?;
            Ok(matched)
        }
        TypeNode::Fun(a, b) => {
            let a = *a;
            let b = *b;
            match function_sides(base, own, t) {
                None => Ok(false),
                Some(sides) => {
                    let left = match_part(base, own, found, done, a, sides.0)?;
                    if left {
                        let right = match_part(base, own, found, done, b, sides.1)?;
                        return Ok(right);
                    }
                    Ok(false)
                }
            }
        }
        TypeNode::Cons(n, ps) => {
            match constructor_args(base, own, *n, t) {
                None => Ok(false),
                Some(ts) => {
                    let matched = match_args(base, own, found, done, pattern, ps.as_slice(), ts)?;
                    Ok(matched)
                }
            }
        }
    }
}

/// Whether parts of the pattern can be the types, each its own.
#[cycle(matching)]
fn match_args(
    base: &TypeTables,
    own: &TypeTables,
    found: &mut Vec<(NameId, TypeId)>,
    done: &mut Done,
    above: TypeId,
    ps: &[TypeId],
    ts: &[TypeId],
) -> Result<bool, AllocError>
    requires lawful { IsTypeStore (joined base.now own.now) }
    requires above { HasType (joined base.now own.now) above }
    requires below { AllByRecursion (λ p. p < above) ps.now }
    requires there { AllByRecursion (λ t. HasType (joined base.now own.now) t) ts.now }
    requires count { length ps.now ≡ length ts.now }
    requires found { HasSubst (joined base.now own.now) found.old.items }
    requires done { AllDone (joined base.now own.now) (subst_tree (joined base.now own.now) found.old.items) done.old }
    ensures answer { IfOk result (λ r. IsAnswer (MatchFirst (joined base.now own.now) ps.now ts.now (length ps.now)) (subst_tree (joined base.now own.now) found.old.items) (subst_tree (joined base.now own.now) found.new.items) r) }
    ensures found { IfOk result (λ _. HasSubst (joined base.now own.now) found.new.items) }
    ensures once { IfOk result (λ _. NamesOnce found.old.items → NamesOnce found.new.items) }
    ensures done { IfOk result (λ _. AllDone (joined base.now own.now) (subst_tree (joined base.now own.now) found.new.items) done.new) }
{
    for i in 0..ps.len() {
        let p = ps[i];
        let t = ts[i];
        let matched = match_part(base, own, found, done, p, t)?;
        if !matched {
            return Ok(false);
        }
    }
    Ok(true)
}

/// Matches the parts of a deep pattern, as far as they can be what they have to be. False only where the pattern can't.
fn match_beneath(
    base: &TypeTables,
    own: &TypeTables,
    alloc: Global,
    found: &mut Vec<(NameId, TypeId)>,
    done: &mut Done,
    pattern: TypeId,
    t: TypeId,
) -> Result<bool, AllocError>
    requires lawful { IsTypeStore (joined base.now own.now) }
    requires pattern { HasType (joined base.now own.now) pattern }
    requires there { HasType (joined base.now own.now) t }
    requires found { HasSubst (joined base.now own.now) found.old.items }
    requires done { AllDone (joined base.now own.now) (subst_tree (joined base.now own.now) found.old.items) done.old }
    ensures refused { IfOk result (λ r. r ≡ false → IsNone (Matches (type_tree (joined base.now own.now) pattern) (type_tree (joined base.now own.now) t)) (subst_tree (joined base.now own.now) found.old.items)) }
    ensures ahead { IfOk result (λ r. r ≡ true → IsAhead (type_tree (joined base.now own.now) pattern) (type_tree (joined base.now own.now) t) (subst_tree (joined base.now own.now) found.old.items) (subst_tree (joined base.now own.now) found.new.items)) }
    ensures found { IfOk result (λ _. HasSubst (joined base.now own.now) found.new.items) }
    ensures once { IfOk result (λ _. NamesOnce found.old.items → NamesOnce found.new.items) }
    ensures done { IfOk result (λ _. AllDone (joined base.now own.now) (subst_tree (joined base.now own.now) found.new.items) done.new) }
{
    let pairs = deep_pairs(base, own, alloc, pattern, t)?;
    for pair in pairs.as_slice() {
        let matched = match_part(base, own, found, done, pair.0, pair.1)?;
        if !matched {
            return Ok(false);
        }
    }
    Ok(true)
}

/// The least extension of s that gives each type variable of the pattern a type, so that with these the pattern is the
/// type. None exactly where under no extension of s the pattern is the type.
pub fn match_in(
    base: &TypeTables,
    own: &TypeTables,
    alloc: Global,
    pattern: TypeId,
    t: TypeId,
    s: &[(NameId, TypeId)],
) -> Result<Option<Subst>, AllocError>
    requires lawful { IsTypeStore (joined base.now own.now) }
    requires pattern { HasType (joined base.now own.now) pattern }
    requires there { HasType (joined base.now own.now) t }
    requires subst { HasSubst (joined base.now own.now) s.now }
    ensures there { IfOk result (λ found. IfSome found (λ u. HasSubst (joined base.now own.now) u)) }
    ensures least { IfOk result (λ found. IfSome found (λ u. IsLeast (Matches (type_tree (joined base.now own.now) pattern) (type_tree (joined base.now own.now) t)) (subst_tree (joined base.now own.now) s.now) (subst_tree (joined base.now own.now) u))) }
    ensures once { IfOk result (λ found. IfSome found (λ u. NamesOnce s.now → NamesOnce u)) }
    ensures none { IfOk result (λ found. found ≡ None → NeverIs (subst_tree (joined base.now own.now) s.now) (type_tree (joined base.now own.now) pattern) (type_tree (joined base.now own.now) t)) }
{
    let mut found = Vec::from_slice(alloc, s)?;
    let mut done = HashMap::new(alloc);
    let may = match_beneath(base, own, alloc, &mut found, &mut done, pattern, t)?;
    if !may {
        return Ok(None);
    }
    let matched = match_part(base, own, &mut found, &mut done, pattern, t)?;
    if matched {
        return Ok(Some(List::new(found)));
    }
    Ok(None)
}
