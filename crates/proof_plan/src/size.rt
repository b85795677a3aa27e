//! How large a rule application may be.
ghost use Rattle.std.specs.Prelude.{◌≡◌, ◌∷◌, IfOk, MatchOption};
ghost use Rattle.std.specs.List.{AllByRecursion};
ghost use Rattle.hol_terms.specs.TermStore.{HasTerm, Keeps};
ghost use Rattle.part_numbers.specs.Walk.{terms_at};
ghost use Rattle.proof_plan.specs.PlanValue.{claim_of, premise_claims};
ghost use Rattle.proof_plan.specs.Accept.{Accept, refused, row_answer, count_of};

use crate::step::Task;
use crate::why::Why;
use hol_terms::{TermId, Terms};
use part_numbers::PartNumbers;
use std::alloc::{AllocError, Global};

/// The most distinct parts that an accepted rule application has.
pub const MOST_PARTS: u32 = 100_000;

/// The claim of the node, and then those of its premises.
fn claims(alloc: Global, task: &Task<'_>) -> Result<Vec<TermId>, AllocError>
    ensures there { IfOk result (λ ts. AllByRecursion (HasTerm task.now.plan.store) ts.items) }
    ensures trees { IfOk result (λ ts. terms_at task.now.plan.store ts.items ≡ claim_of task.now.plan task.now.node ∷ premise_claims task.now.plan task.now.node) }
{
    let mut terms = Vec::new(alloc);
    terms.push(task.claim())?;
    for i in 0..task.premises().len() {
        terms.push(task.premise_claim(i))?;
    }
    Ok(terms)
}

/// How many distinct parts the claims of the node and of its premises have, in a store that goes on from the plan's.
fn count_parts<S: Terms>(store: &S, task: &Task<'_>) -> Result<u32, AllocError>
    requires { Keeps task.now.plan.store (S.store store.now) }
    ensures { IfOk result (λ n. n ≡ count_of (premise_claims task.now.plan task.now.node) (claim_of task.now.plan task.now.node)) }
{
    let terms = claims(store.allocator(), task)?;
    let parts = PartNumbers::of(store, &terms)?;
    match u32::try_from(parts.len()) {
        Ok(count) => Ok(count),
        Err(_) => Err(AllocError),
    }
}

/// TooLarge where the claims of the node and of its premises have more than 100,000 distinct parts, by how many they
/// have. Else the row of the node's rule decides. The store goes on from the plan's.
pub fn too_large<S: Terms>(store: &S, task: &Task<'_>) -> Result<Option<Why>, AllocError>
    requires { Keeps task.now.plan.store (S.store store.now) }
    ensures { IfOk result (λ found. MatchOption found (Accept task.now.plan task.now.node ≡ row_answer task.now.plan task.now.node) (λ w. Accept task.now.plan task.now.node ≡ refused w)) }
{
    let count = count_parts(store, task)?;
    if count > MOST_PARTS {
        Ok(Some(Why::TooLarge(count)))
    } else {
        Ok(None)
    }
}
