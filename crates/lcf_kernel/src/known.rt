//! What is known of formulas: each is walked once for its free variables and its type variables.
ghost use Rattle.std.specs.Prelude.{◌≡◌, ◌↔◌, ◌∷◌, [], true, false, IsTrue, IfOk};
ghost use Rattle.hol_types.specs.TypeSubst.{HasSubst, subst_tree};
ghost use Rattle.hol_terms.specs.Substitution.{free_variables, subst_types};
ghost use Rattle.hol_terms.specs.TermStore.{HasTerm, Keeps, term_tree};
ghost use Rattle.hol_terms.specs.Formula.{ChangesNone, In, NotFreeIn, NotFreeInAny, without};
ghost use Rattle.hol_formulas.specs.Found.{AreVariables};
ghost use Rattle.hol_formulas.specs.FoundTypes.{type_variables_in, AreTypeVariables};
ghost use Rattle.hol_formulas.specs.Formulas.{trees, HasFormula, HasFormulas};
ghost use Rattle.lcf_kernel.specs.Hyps.{Rises};
ghost use Rattle.lcf_kernel.specs.Known.{AreOf, AllKnown};

use crate::hyps::{holds, in_order};
use hol_formulas::type_variables::type_variables_of;
use hol_formulas::unchanged::leaves_each;
use hol_formulas::variables::variables_of;
use hol_terms::{Store, TermId, Terms};
use hol_types::{List, Subst, TypeId};
use std::alloc::AllocError;
use std::collections::HashMap;

/// The variables of a formula.
#[derive(Drop)]
pub(crate) struct Variables {
    /// The ids of its free variables in rising order, each once.
    pub(crate) free: List<TermId>,
    /// The ids of the types that are its type variables.
    pub(crate) types: List<TypeId>,
}

/// The variables of formulas, by the formulas' ids.
pub(crate) type Known = HashMap<TermId, Variables>;

/// The free variables of formulas in rising order, each once.
pub(crate) fn variables_in_order(
    store: &Store<'_>,
    ts: &[TermId],
) -> Result<List<TermId>, AllocError>
    requires { HasFormulas store.now.store ts.now }
    ensures rises { IfOk result Rises }
    ensures are { IfOk result (λ c. AreVariables store.now.store c (trees store.now.store ts.now)) }
{
    let found = variables_of(store, ts)?;
    let c = in_order(store.allocator(), found.as_slice())?;
    Ok(c)
}

/// The type variables of formulas.
pub(crate) fn type_variables_in_list(
    store: &Store<'_>,
    ts: &[TermId],
) -> Result<List<TypeId>, AllocError>
    requires { HasFormulas store.now.store ts.now }
    ensures { IfOk result (λ c. AreTypeVariables store.now.store.types c (type_variables_in (trees store.now.store ts.now))) }
{
    let found = type_variables_of(store, ts)?;
    Ok(List::new(found))
}

/// The variables of a formula, by a walk over it.
fn variables_in(store: &Store<'_>, t: TermId) -> Result<Variables, AllocError>
    requires { HasFormula store.now.store t }
    ensures { IfOk result (λ found. AreOf store.now.store t found) }
{
    let free = variables_in_order(store, &[t])?;
    let types = type_variables_in_list(store, &[t])?;
    Ok(Variables { free, types })
}

/// Whether a free variable is among those of a formula.
fn is_among(store: &Store<'_>, found: &Variables, v: TermId, t: TermId) -> bool
    requires variable { HasTerm store.now.store v }
    requires found { AreOf store.now.store t found.now }
    ensures { IsTrue result ↔ In (term_tree store.now.store v) (free_variables (term_tree store.now.store t)) }
{
    let _apart = store.node(v);
    holds(found.free.as_slice(), v)
}

/// Whether a free variable occurs in a formula. Only one that isn't known is walked.
fn occurs_in(store: &Store<'_>, known: &mut Known, v: TermId, t: TermId) -> Result<bool, AllocError>
    requires variable { HasTerm store.now.store v }
    requires formula { HasFormula store.now.store t }
    requires known { AllKnown store.now.store known.old }
    ensures is { IfOk result (λ r. IsTrue r ↔ In (term_tree store.now.store v) (free_variables (term_tree store.now.store t))) }
    ensures known { AllKnown store.now.store known.new }
{
    if let Some(found) = known.get(&t) {
        return Ok(is_among(store, found, v, t));
    }
    let found = variables_in(store, t)?;
    let free = is_among(store, &found, v, t);
    known.insert(t, found)?;
    Ok(free)
}

/// Whether a free variable occurs in one of the formulas.
pub(crate) fn occurs(
    store: &Store<'_>,
    known: &mut Known,
    v: TermId,
    ts: &[TermId],
) -> Result<bool, AllocError>
    requires variable { HasTerm store.now.store v }
    requires formulas { HasFormulas store.now.store ts.now }
    requires known { AllKnown store.now.store known.old }
    ensures absent { IfOk result (λ r. r ≡ false → NotFreeInAny (term_tree store.now.store v) (trees store.now.store ts.now)) }
    ensures present { IfOk result (λ r. r ≡ true → NotFreeInAny (term_tree store.now.store v) (trees store.now.store ts.now) → ⊥) }
    ensures known { AllKnown store.now.store known.new }
{
    for t in ts {
        let free = occurs_in(store, known, v, *t)?;
        if free {
            return Ok(true);
        }
    }
    Ok(false)
}

/// Whether a formula is another than a given term and a free variable occurs in it.
fn occurs_in_other(
    store: &Store<'_>,
    known: &mut Known,
    v: TermId,
    t: TermId,
    but: TermId,
) -> Result<bool, AllocError>
    requires variable { HasTerm store.now.store v }
    requires formula { HasFormula store.now.store t }
    requires but { HasTerm store.now.store but }
    requires known { AllKnown store.now.store known.old }
    ensures absent { IfOk result (λ r. r ≡ false → (term_tree store.now.store t ≡ term_tree store.now.store but → ⊥) → NotFreeIn (term_tree store.now.store v) (term_tree store.now.store t)) }
    ensures other { IfOk result (λ r. r ≡ true → term_tree store.now.store t ≡ term_tree store.now.store but → ⊥) }
    ensures present { IfOk result (λ r. r ≡ true → In (term_tree store.now.store v) (free_variables (term_tree store.now.store t))) }
    ensures known { AllKnown store.now.store known.new }
{
    let _apart = store.node(t);
    if t == but {
        return Ok(false);
    }
    let free = occurs_in(store, known, v, t)?;
    Ok(free)
}

/// Whether a free variable occurs in one of the formulas other than a given term.
pub(crate) fn occurs_but(
    store: &Store<'_>,
    known: &mut Known,
    v: TermId,
    ts: &[TermId],
    but: TermId,
) -> Result<bool, AllocError>
    requires variable { HasTerm store.now.store v }
    requires formulas { HasFormulas store.now.store ts.now }
    requires but { HasTerm store.now.store but }
    requires known { AllKnown store.now.store known.old }
    ensures absent { IfOk result (λ r. r ≡ false → NotFreeInAny (term_tree store.now.store v) (without (term_tree store.now.store but) (trees store.now.store ts.now))) }
    ensures present { IfOk result (λ r. r ≡ true → NotFreeInAny (term_tree store.now.store v) (without (term_tree store.now.store but) (trees store.now.store ts.now)) → ⊥) }
    ensures known { AllKnown store.now.store known.new }
{
    for t in ts {
        let free = occurs_in_other(store, known, v, *t, but)?;
        if free {
            return Ok(true);
        }
    }
    Ok(false)
}

/// Whether types for type variables leave each type variable of a formula as it is.
fn leaves_found(
    store: &mut Store<'_>,
    found: &Variables,
    t: TermId,
    s: &Subst,
) -> Result<bool, AllocError>
    requires subst { HasSubst store.old.store.types s.now }
    requires found { AreOf store.old.store t found.now }
    ensures is { IfOk result (λ r. IsTrue r ↔ (subst_types (subst_tree store.old.store.types s.now) (term_tree store.old.store t) ≡ term_tree store.old.store t)) }
    ensures keeps { Keeps store.old.store store.new.store }
    ensures base { store.new.base ≡ store.old.base }
{
    let r = leaves_each(store, found.types.as_slice(), s)?;
    Ok(r)
}

/// Whether types for type variables leave a formula as it is. Only one that isn't known is walked.
fn stays(store: &mut Store<'_>, known: &mut Known, t: TermId, s: &Subst) -> Result<bool, AllocError>
    requires formula { HasFormula store.old.store t }
    requires subst { HasSubst store.old.store.types s.now }
    requires known { AllKnown store.old.store known.old }
    ensures is { IfOk result (λ r. IsTrue r ↔ (subst_types (subst_tree store.old.store.types s.now) (term_tree store.old.store t) ≡ term_tree store.old.store t)) }
    ensures keeps { Keeps store.old.store store.new.store }
    ensures base { store.new.base ≡ store.old.base }
    ensures known { AllKnown store.new.store known.new }
{
    if let Some(found) = known.get(&t) {
        let r = leaves_found(store, found, t, s)?;
        return Ok(r);
    }
    let found = variables_in(store, t)?;
    let r = leaves_found(store, &found, t, s)?;
    known.insert(t, found)?;
    Ok(r)
}

/// Whether types for type variables change no type variable of the formulas.
pub(crate) fn changes_none(
    store: &mut Store<'_>,
    known: &mut Known,
    ts: &[TermId],
    s: &Subst,
) -> Result<bool, AllocError>
    requires formulas { HasFormulas store.old.store ts.now }
    requires subst { HasSubst store.old.store.types s.now }
    requires known { AllKnown store.old.store known.old }
    ensures is { IfOk result (λ r. r ≡ true → ChangesNone (subst_tree store.old.store.types s.now) (trees store.old.store ts.now)) }
    ensures isnt { IfOk result (λ r. r ≡ false → ChangesNone (subst_tree store.old.store.types s.now) (trees store.old.store ts.now) → ⊥) }
    ensures keeps { Keeps store.old.store store.new.store }
    ensures base { store.new.base ≡ store.old.base }
    ensures known { AllKnown store.new.store known.new }
{
    for t in ts {
        let same = stays(store, known, *t, s)?;
        if !same {
            return Ok(false);
        }
    }
    Ok(true)
}
