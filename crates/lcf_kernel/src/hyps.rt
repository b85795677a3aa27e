//! Hypotheses: term ids in rising order, each once.
ghost use Rattle.std.specs.Prelude.{◌≡◌, ◌++◌, IfOk, filter, not, ◌==◌};
ghost use Rattle.lcf_kernel.specs.Hyps.{Rises, SameIds, stands};

use hol_terms::TermId;
use hol_types::List;
use std::alloc::{AllocError, Global};

/// The ids of a list.
pub(crate) fn copied(alloc: Global, a: &[TermId]) -> Result<List<TermId>, AllocError>
    ensures { IfOk result (λ c. c ≡ a.now) }
{
    let items = Vec::from_slice(alloc, a)?;
    Ok(List::new(items))
}

/// The ids of two rising lists, in one pass over both.
pub(crate) fn union(alloc: Global, a: &[TermId], b: &[TermId]) -> Result<List<TermId>, AllocError>
    requires left { Rises a.now }
    requires right { Rises b.now }
    ensures rises { IfOk result Rises }
    ensures union { IfOk result (λ c. SameIds c (a.now ++ b.now)) }
{
    let mut both = Vec::new(alloc);
    let mut i = 0;
    let mut j = 0;
    'merge: while i < a.len() && j < b.len() {
        let x = a[i];
        let y = b[j];
        if x < y {
            both.push(x)?;
            i += 1;
        } else if y < x {
            both.push(y)?;
            j += 1;
        } else {
            both.push(x)?;
            i += 1;
            j += 1;
        }
    }
    both.extend_from_slice(&a[i..])?;
    both.extend_from_slice(&b[j..])?;
    Ok(List::new(both))
}

fn others(alloc: Global, a: &[TermId], t: TermId) -> Result<Vec<TermId>, AllocError>
    ensures { IfOk result (λ c. c.items ≡ filter (λ u. not (u == t)) a.now) }
{
    a.iter().copied().filter(|u| *u != t).collect(alloc)
}

/// The ids of a rising list but one.
pub(crate) fn without(alloc: Global, a: &[TermId], t: TermId) -> Result<List<TermId>, AllocError>
    ensures rises { IfOk result (λ c. Rises a.now → Rises c) }
    ensures without { IfOk result (λ c. c ≡ filter (λ u. not (u == t)) a.now) }
{
    let kept = others(alloc, a, t)?;
    Ok(List::new(kept))
}

/// The ids of a list in rising order, each once.
pub(crate) fn in_order(alloc: Global, a: &[TermId]) -> Result<List<TermId>, AllocError>
    ensures rises { IfOk result Rises }
    ensures same { IfOk result (λ c. SameIds c a.now) }
{
    let mut all = Vec::from_slice(alloc, a)?;
    all.sort_unstable();
    all.dedup();
    Ok(List::new(all))
}

/// Whether an id stands in a rising list. It looks at as many ids as the list's length has binary digits.
pub(crate) fn holds(a: &[TermId], t: TermId) -> bool
    requires { Rises a.now }
    ensures { result ≡ stands t a.now }
{
    a.binary_search(&t).is_ok()
}

/// The ids of the one list that don't stand in the other, which rises.
pub(crate) fn outside(
    alloc: Global,
    a: &[TermId],
    context: &[TermId],
) -> Result<List<TermId>, AllocError>
    requires { Rises context.now }
    ensures rises { IfOk result (λ c. Rises a.now → Rises c) }
    ensures outside { IfOk result (λ c. c ≡ filter (λ u. not (stands u context.now)) a.now) }
{
    let mut kept = Vec::new(alloc);
    for t in a {
        if !holds(context, *t) {
            kept.push(*t)?;
        }
    }
    Ok(List::new(kept))
}
