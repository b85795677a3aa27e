//! Terms for the Schematic variables of a pattern, with which it is a given term.
ghost use Rattle.std.specs.Prelude.{◌≡◌, ◌↔◌, ◌<◌, IfOk, OnOk, IfSome, IsTrue, MatchOption, None};
ghost use Rattle.hol_types.specs.Ty.{Ty};
ghost use Rattle.hol_types.specs.TypeStore.{HasName, HasType, type_tree};
ghost use Rattle.hol_terms.specs.Term.{Term, AppTm, LamTm, NumTm, ty_of};
ghost use Rattle.hol_terms.specs.TermStore.{HasTerm, TermsApart, term_tree, tree_of};
ghost use Rattle.hol_terms.specs.declared.node.Node.TheVariants.{Free, Bound, Const, Num};
ghost use Rattle.hol_terms.specs.declared.node.FreeKind.TheVariants.{Schematic};
ghost use Rattle.hol_match.specs.Instance.{Instance, IsSchematic, TypesOccur, instance_by, variables_once};
ghost use Rattle.hol_match.specs.Inst.{HasInst, inst_tree, inst_variables, term_for};
ghost use Rattle.hol_match.specs.Matching.{AllSame, IsMatch, IsProgress};

use crate::inst::Inst;
use crate::same_types::SameTypes;
use crate::sides::{OneStore, Sides, TwoStores};
use hol_terms::{FreeKind, Node, TermId, Terms};
use hol_types::{NameId, TypeId};
use std::alloc::AllocError;
use std::collections::HashMap;

/// What is known so far.
#[derive(Drop)]
pub(crate) struct Progress {
    /// Types of the pattern, with the types that they are.
    types: SameTypes,
    /// Parts of the pattern, with the parts of the term that they are.
    parts: HashMap<TermId, TermId>,
    /// The terms for variables.
    found: Inst,
}

/// The two sides of an application.
fn application<D: Sides>(sides: &D, t: TermId) -> Option<(TermId, TermId)>
    requires { HasTerm (D.terms sides.now) t }
    ensures there { IfSome result (λ p. HasTerm (D.terms sides.now) p.0 × HasTerm (D.terms sides.now) p.1) }
    ensures sides { IfSome result (λ p. term_tree (D.terms sides.now) t ≡ AppTm (term_tree (D.terms sides.now) p.0) (term_tree (D.terms sides.now) p.1)) }
    ensures other { result ≡ None → (f x : Term) → term_tree (D.terms sides.now) t ≡ AppTm f x → ⊥ }
{
    match sides.term(t) {
        Node::App(f, x) => Some((f, x)),
        Node::Free(_, _, _) => None,
        Node::Bound(_, _) => None,
        Node::Const(_, _) => None,
        Node::Num(_) => None,
        Node::Lam(_, _) => None,
    }
}

/// The type of a lambda's variable, and its body.
fn lambda<D: Sides>(sides: &D, t: TermId) -> Option<(TypeId, TermId)>
    requires { HasTerm (D.terms sides.now) t }
    ensures there { IfSome result (λ p. HasType (D.terms sides.now).types p.0 × HasTerm (D.terms sides.now) p.1) }
    ensures parts { IfSome result (λ p. term_tree (D.terms sides.now) t ≡ LamTm (type_tree (D.terms sides.now).types p.0) (term_tree (D.terms sides.now) p.1)) }
    ensures other { result ≡ None → (u : Ty) (b : Term) → term_tree (D.terms sides.now) t ≡ LamTm u b → ⊥ }
{
    match sides.term(t) {
        Node::Lam(ty, b) => Some((ty, b)),
        Node::Free(_, _, _) => None,
        Node::Bound(_, _) => None,
        Node::Const(_, _) => None,
        Node::Num(_) => None,
        Node::App(_, _) => None,
    }
}

/// Whether a term is this free variable of the pattern's store.
fn is_free<D: Sides>(
    sides: &D,
    known: &mut SameTypes,
    kind: FreeKind,
    n: NameId,
    ty: TypeId,
    t: TermId,
) -> Result<bool, AllocError>
    requires name { HasName (D.patterns sides.now).types n }
    requires has_type { HasType (D.patterns sides.now).types ty }
    requires term { HasTerm (D.terms sides.now) t }
    requires known { AllSame (D.patterns sides.now).types (D.terms sides.now).types known.old }
    ensures same { IfOk result (λ r. IsTrue r ↔ (tree_of (D.patterns sides.now) (Free kind n ty) ≡ term_tree (D.terms sides.now) t)) }
    ensures known { OnOk result (AllSame (D.patterns sides.now).types (D.terms sides.now).types known.new) }
{
    match sides.term(t) {
        Node::Free(other, m, u) => {
            if kind == other && sides.is_same_name(n, m) {
                let same = sides.is_same_type(known, ty, u)?;
                return Ok(same);
            }
            Ok(false)
        }
        Node::Bound(_, _) => Ok(false),
        Node::Const(_, _) => Ok(false),
        Node::Num(_) => Ok(false),
        Node::App(_, _) => Ok(false),
        Node::Lam(_, _) => Ok(false),
    }
}

/// Whether a term is this bound variable of the pattern's store.
fn is_bound<D: Sides>(
    sides: &D,
    known: &mut SameTypes,
    i: u32,
    ty: TypeId,
    t: TermId,
) -> Result<bool, AllocError>
    requires has_type { HasType (D.patterns sides.now).types ty }
    requires term { HasTerm (D.terms sides.now) t }
    requires known { AllSame (D.patterns sides.now).types (D.terms sides.now).types known.old }
    ensures same { IfOk result (λ r. IsTrue r ↔ (tree_of (D.patterns sides.now) (Bound i ty) ≡ term_tree (D.terms sides.now) t)) }
    ensures known { OnOk result (AllSame (D.patterns sides.now).types (D.terms sides.now).types known.new) }
{
    match sides.term(t) {
        Node::Bound(j, u) => {
            if i == j {
                let same = sides.is_same_type(known, ty, u)?;
                return Ok(same);
            }
            Ok(false)
        }
        Node::Free(_, _, _) => Ok(false),
        Node::Const(_, _) => Ok(false),
        Node::Num(_) => Ok(false),
        Node::App(_, _) => Ok(false),
        Node::Lam(_, _) => Ok(false),
    }
}

/// Whether a term is this constant of the pattern's store.
fn is_constant<D: Sides>(
    sides: &D,
    known: &mut SameTypes,
    n: NameId,
    ty: TypeId,
    t: TermId,
) -> Result<bool, AllocError>
    requires name { HasName (D.patterns sides.now).types n }
    requires has_type { HasType (D.patterns sides.now).types ty }
    requires term { HasTerm (D.terms sides.now) t }
    requires known { AllSame (D.patterns sides.now).types (D.terms sides.now).types known.old }
    ensures same { IfOk result (λ r. IsTrue r ↔ (tree_of (D.patterns sides.now) (Const n ty) ≡ term_tree (D.terms sides.now) t)) }
    ensures known { OnOk result (AllSame (D.patterns sides.now).types (D.terms sides.now).types known.new) }
{
    match sides.term(t) {
        Node::Const(m, u) => {
            if sides.is_same_name(n, m) {
                let same = sides.is_same_type(known, ty, u)?;
                return Ok(same);
            }
            Ok(false)
        }
        Node::Free(_, _, _) => Ok(false),
        Node::Bound(_, _) => Ok(false),
        Node::Num(_) => Ok(false),
        Node::App(_, _) => Ok(false),
        Node::Lam(_, _) => Ok(false),
    }
}

/// Whether a term is a number.
fn is_number<D: Sides>(sides: &D, z: i128, t: TermId) -> bool
    requires term { HasTerm (D.terms sides.now) t }
    ensures { IsTrue result ↔ (NumTm z ≡ term_tree (D.terms sides.now) t) }
{
    match sides.term(t) {
        Node::Num(w) => z == w,
        Node::Free(_, _, _) => false,
        Node::Bound(_, _) => false,
        Node::Const(_, _) => false,
        Node::App(_, _) => false,
        Node::Lam(_, _) => false,
    }
}

/// Whether variables of a kind are Schematic.
fn is_schematic(kind: FreeKind) -> bool
    ensures { IsTrue result ↔ (kind ≡ Schematic) }
{
    match kind {
        FreeKind::Schematic => true,
        FreeKind::Open => false,
        FreeKind::Symbol => false,
        FreeKind::Lifted => false,
    }
}

/// Whether a Schematic variable can be the term: it has the term already, or has none, and then takes it where the term has
/// the variable's type and no loose Bound.
fn match_variable<D: Sides>(
    sides: &D,
    progress: &mut Progress,
    v: TermId,
    ty: TypeId,
    t: TermId,
) -> Result<bool, AllocError>
    requires variable { HasTerm (D.patterns sides.now) v }
    requires apart { TermsApart (D.patterns sides.now) }
    requires schematic { IsSchematic (term_tree (D.patterns sides.now) v) }
    requires has_type { HasType (D.patterns sides.now).types ty }
    requires its_type { type_tree (D.patterns sides.now).types ty ≡ ty_of (term_tree (D.patterns sides.now) v) }
    requires term { HasTerm (D.terms sides.now) t }
    requires progress { IsProgress (D.patterns sides.now) (D.terms sides.now) progress.old }
    ensures answer { IfOk result (λ r. IsMatch (term_tree (D.patterns sides.now) v) (term_tree (D.terms sides.now) t) (inst_tree (D.patterns sides.now) (D.terms sides.now) progress.old.found) (inst_tree (D.patterns sides.now) (D.terms sides.now) progress.new.found) r) }
    ensures progress { OnOk result (IsProgress (D.patterns sides.now) (D.terms sides.now) progress.new) }
{
    if let Some(given) = progress.found.get(v) {
        let _apart = sides.term(t);
        return Ok(given == t);
    }
    if !sides.is_closed(t) {
        return Ok(false);
    }
    let same = sides.is_same_type(&mut progress.types, ty, sides.term_type(t))?;
    if !same {
        return Ok(false);
    }
    progress.found.insert(v, t)?;
    Ok(true)
}

/// Whether a part of the pattern can be a part of the term.
#[cycle(matching)]
fn match_part<D: Sides>(
    sides: &D,
    progress: &mut Progress,
    p: TermId,
    t: TermId,
) -> Result<bool, AllocError>
    requires pattern { HasTerm (D.patterns sides.now) p }
    requires term { HasTerm (D.terms sides.now) t }
    requires progress { IsProgress (D.patterns sides.now) (D.terms sides.now) progress.old }
    ensures answer { IfOk result (λ r. IsMatch (term_tree (D.patterns sides.now) p) (term_tree (D.terms sides.now) t) (inst_tree (D.patterns sides.now) (D.terms sides.now) progress.old.found) (inst_tree (D.patterns sides.now) (D.terms sides.now) progress.new.found) r) }
    ensures progress { OnOk result (IsProgress (D.patterns sides.now) (D.terms sides.now) progress.new) }
{
    match sides.pattern(p) {
        Node::Free(kind, n, ty) => {
            if is_schematic(kind) {
                let matched = match_variable(sides, progress, p, ty, t)?;
                return Ok(matched);
            }
            let matched = is_free(sides, &mut progress.types, kind, n, ty, t)?;
            Ok(matched)
        }
        Node::Bound(i, ty) => {
            let matched = is_bound(sides, &mut progress.types, i, ty, t)?;
            Ok(matched)
        }
        Node::Const(n, ty) => {
            let matched = is_constant(sides, &mut progress.types, n, ty, t)?;
            Ok(matched)
        }
        Node::Num(z) => Ok(is_number(sides, z, t)),
        Node::App(f, x) => {
            let matched = match_application(sides, progress, p, f, x, t)?;
            Ok(matched)
        }
        Node::Lam(ty, b) => {
            let matched = match_lambda(sides, progress, p, ty, b, t)?;
            Ok(matched)
        }
    }
}

/// Whether an application of the pattern can be a part of the term. A shared one is gone through once.
#[cycle(matching)]
fn match_application<D: Sides>(
    sides: &D,
    progress: &mut Progress,
    p: TermId,
    f: TermId,
    x: TermId,
    t: TermId,
) -> Result<bool, AllocError>
    requires pattern { HasTerm (D.patterns sides.now) p }
    requires function { f < p }
    requires argument { x < p }
    requires is { term_tree (D.patterns sides.now) p ≡ AppTm (term_tree (D.patterns sides.now) f) (term_tree (D.patterns sides.now) x) }
    requires term { HasTerm (D.terms sides.now) t }
    requires progress { IsProgress (D.patterns sides.now) (D.terms sides.now) progress.old }
    ensures answer { IfOk result (λ r. IsMatch (term_tree (D.patterns sides.now) p) (term_tree (D.terms sides.now) t) (inst_tree (D.patterns sides.now) (D.terms sides.now) progress.old.found) (inst_tree (D.patterns sides.now) (D.terms sides.now) progress.new.found) r) }
    ensures progress { OnOk result (IsProgress (D.patterns sides.now) (D.terms sides.now) progress.new) }
{
    if let Some(u) = progress.parts.get(&p).copied() {
        let _apart = sides.term(t);
        return Ok(u == t);
    }
    let Some(parts) = application(sides, t) else {
        return Ok(false);
    };
    let function = match_part(sides, progress, f, parts.0)?;
    if !function {
        return Ok(false);
    }
    let argument = match_part(sides, progress, x, parts.1)?;
    if !argument {
        return Ok(false);
    }
    progress.parts.insert(p, t)?;
    Ok(true)
}

/// Whether a lambda of the pattern can be a part of the term. A shared one is gone through once.
#[cycle(matching)]
fn match_lambda<D: Sides>(
    sides: &D,
    progress: &mut Progress,
    p: TermId,
    ty: TypeId,
    b: TermId,
    t: TermId,
) -> Result<bool, AllocError>
    requires pattern { HasTerm (D.patterns sides.now) p }
    requires has_type { HasType (D.patterns sides.now).types ty }
    requires body { b < p }
    requires is { term_tree (D.patterns sides.now) p ≡ LamTm (type_tree (D.patterns sides.now).types ty) (term_tree (D.patterns sides.now) b) }
    requires term { HasTerm (D.terms sides.now) t }
    requires progress { IsProgress (D.patterns sides.now) (D.terms sides.now) progress.old }
    ensures answer { IfOk result (λ r. IsMatch (term_tree (D.patterns sides.now) p) (term_tree (D.terms sides.now) t) (inst_tree (D.patterns sides.now) (D.terms sides.now) progress.old.found) (inst_tree (D.patterns sides.now) (D.terms sides.now) progress.new.found) r) }
    ensures progress { OnOk result (IsProgress (D.patterns sides.now) (D.terms sides.now) progress.new) }
{
    if let Some(u) = progress.parts.get(&p).copied() {
        let _apart = sides.term(t);
        return Ok(u == t);
    }
    let Some(parts) = lambda(sides, t) else {
        return Ok(false);
    };
    let same = sides.is_same_type(&mut progress.types, ty, parts.0)?;
    if !same {
        return Ok(false);
    }
    let body = match_part(sides, progress, b, parts.1)?;
    if !body {
        return Ok(false);
    }
    progress.parts.insert(p, t)?;
    Ok(true)
}

/// Terms for the Schematic variables of the pattern with which it is the term, wherever they stand.
fn match_sides<D: Sides>(
    sides: &D,
    pattern: TermId,
    term: TermId,
) -> Result<Option<Inst>, AllocError>
    requires pattern { HasTerm (D.patterns sides.now) pattern }
    requires term { HasTerm (D.terms sides.now) term }
    ensures terms { IfOk result (λ found. IfSome found (λ i. HasInst (D.patterns sides.now) (D.terms sides.now) i)) }
    ensures variables { IfOk result (λ found. IfSome found (λ i. inst_variables (inst_tree (D.patterns sides.now) (D.terms sides.now) i) ≡ variables_once (term_tree (D.patterns sides.now) pattern))) }
    ensures is { IfOk result (λ found. IfSome found (λ i. instance_by (term_for (inst_tree (D.patterns sides.now) (D.terms sides.now) i)) (term_tree (D.patterns sides.now) pattern) ≡ term_tree (D.terms sides.now) term)) }
    ensures types { IfOk result (λ found. IfSome found (λ _. TypesOccur (term_tree (D.patterns sides.now) pattern) (term_tree (D.terms sides.now) term))) }
    ensures exactly { IfOk result (λ found. MatchOption found (Instance (term_tree (D.patterns sides.now) pattern) (term_tree (D.terms sides.now) term) → ⊥) (λ _. Instance (term_tree (D.patterns sides.now) pattern) (term_tree (D.terms sides.now) term))) }
{
    let alloc = sides.allocator();
    let mut progress = Progress {
        types: HashMap::new(alloc),
        parts: HashMap::new(alloc),
        found: Inst::new(alloc),
    };
    let matched = match_part(sides, &mut progress, pattern, term)?;
    if matched {
        return Ok(Some(progress.found));
    }
    Ok(None)
}

/// Terms for the Schematic variables of the pattern, each of its variable's type and without a loose Bound, with which the
/// pattern is the term: a list of the variables, each once by first occurrence, with their terms. None exactly where no
/// instance of the pattern is the term. It goes once through each distinct part of the pattern.
pub fn match_term<S: Terms>(
    store: &S,
    pattern: TermId,
    term: TermId,
) -> Result<Option<Inst>, AllocError>
    requires pattern { HasTerm (S.store store.now) pattern }
    requires term { HasTerm (S.store store.now) term }
    ensures terms { IfOk result (λ found. IfSome found (λ i. HasInst (S.store store.now) (S.store store.now) i)) }
    ensures variables { IfOk result (λ found. IfSome found (λ i. inst_variables (inst_tree (S.store store.now) (S.store store.now) i) ≡ variables_once (term_tree (S.store store.now) pattern))) }
    ensures is { IfOk result (λ found. IfSome found (λ i. instance_by (term_for (inst_tree (S.store store.now) (S.store store.now) i)) (term_tree (S.store store.now) pattern) ≡ term_tree (S.store store.now) term)) }
    ensures exactly { IfOk result (λ found. MatchOption found (Instance (term_tree (S.store store.now) pattern) (term_tree (S.store store.now) term) → ⊥) (λ _. Instance (term_tree (S.store store.now) pattern) (term_tree (S.store store.now) term))) }
{
    let sides = OneStore { store };
    let found = match_sides(&sides, pattern, term)?;
    Ok(found)
}

/// The same, for a pattern of one store and a term of another, whose names and types are compared as texts and trees. The
/// variables are those of the pattern's store, their terms stand in the term's. Where there is an instance, each type of
/// the pattern occurs in the term. It also goes once through each distinct part of the pattern's types.
pub fn match_across<P: Terms, S: Terms>(
    patterns: &P,
    pattern: TermId,
    terms: &S,
    term: TermId,
) -> Result<Option<Inst>, AllocError>
    requires pattern { HasTerm (P.store patterns.now) pattern }
    requires term { HasTerm (S.store terms.now) term }
    ensures terms { IfOk result (λ found. IfSome found (λ i. HasInst (P.store patterns.now) (S.store terms.now) i)) }
    ensures variables { IfOk result (λ found. IfSome found (λ i. inst_variables (inst_tree (P.store patterns.now) (S.store terms.now) i) ≡ variables_once (term_tree (P.store patterns.now) pattern))) }
    ensures is { IfOk result (λ found. IfSome found (λ i. instance_by (term_for (inst_tree (P.store patterns.now) (S.store terms.now) i)) (term_tree (P.store patterns.now) pattern) ≡ term_tree (S.store terms.now) term)) }
    ensures types { IfOk result (λ found. IfSome found (λ _. TypesOccur (term_tree (P.store patterns.now) pattern) (term_tree (S.store terms.now) term))) }
    ensures exactly { IfOk result (λ found. MatchOption found (Instance (term_tree (P.store patterns.now) pattern) (term_tree (S.store terms.now) term) → ⊥) (λ _. Instance (term_tree (P.store patterns.now) pattern) (term_tree (S.store terms.now) term))) }
{
    let sides = TwoStores { patterns, terms };
    let found = match_sides(&sides, pattern, term)?;
    Ok(found)
}
