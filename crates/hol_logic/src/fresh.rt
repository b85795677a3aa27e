//! Variables that nothing speaks of.
ghost use Rattle.std.specs.Prelude.{IfOk};
ghost use Rattle.hol_types.specs.TypeStore.{HasType, type_tree};
ghost use Rattle.hol_terms.specs.Term.{FreeTm};
ghost use Rattle.hol_terms.specs.declared.node.FreeKind.TheVariants.{Open};
ghost use Rattle.hol_terms.specs.TermStore.{HasTerm, term_tree};
ghost use Rattle.hol_formulas.specs.Constants.{IsAt};
ghost use Rattle.lcf_kernel.specs.KernelState.{KeepsAll};
ghost use Rattle.hol_logic.specs.Quantified.{IsFresh};

use hol_terms::{FreeKind, Node, TermId, Terms, make};
use hol_types::TypeId;
use lcf_kernel::Kernel;
use std::alloc::AllocError;

/// The Open variable of a name and a type.
#[tactic(auto, using(hol_terms::proofs::KeepsLemmas::keeps_trans, lcf_kernel::proofs::KeepLemmas::keeps_all_rest))]
fn variable(k: &mut Kernel<'_>, text: &[u8], ty: TypeId) -> Result<TermId, AllocError>
    requires { HasType k.old.store.types ty }
    ensures is { IfOk result (λ v. IsAt k.new.store v (FreeTm Open text.now (type_tree k.old.store.types ty))) }
    ensures keeps { KeepsAll k.old k.new }
{
    let _constants = k.constants();
    let word = k.name(text)?;
    let v = make(k, Node::Free(FreeKind::Open, word, ty))?;
    Ok(v)
}

/// An Open variable of a type that a term, which may have loose Bounds, doesn't speak of: the first of those named by one
/// letter again and again.
#[tactic(auto, using(lcf_kernel::proofs::KeepLemmas::keeps_all_same, lcf_kernel::proofs::KeepLemmas::keeps_all_trans))]
pub(crate) fn fresh(k: &mut Kernel<'_>, ty: TypeId, t: TermId) -> Result<TermId, AllocError>
    requires ty { HasType k.old.store.types ty }
    requires there { HasTerm k.old.store t }
    ensures there { IfOk result (λ v. HasTerm k.new.store v) }
    ensures is { IfOk result (λ v. IsFresh (term_tree k.new.store v) (type_tree k.old.store.types ty) (term_tree k.old.store t)) }
    ensures keeps { KeepsAll k.old k.new }
{
    let mut name = Vec::new(k.allocator());
    for _ in 0..u32::MAX {
        name.push(b'x')?;
        let v = variable(k, name.as_slice(), ty)?;
        let free = k.free_in(v, t)?;
        if !free {
            return Ok(v);
        }
    }
    // A term with so many variables is more than a store holds.
    Err(AllocError)
}
