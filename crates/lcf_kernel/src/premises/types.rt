//! What rules of types ask and make.
ghost use Rattle.std.specs.Prelude.{◌≡◌, true, false, IfOk, IfSome, IfNone};
ghost use Rattle.hol_types.specs.TypeSubst.{HasSubst, subst_tree};
ghost use Rattle.hol_terms.specs.Substitution.{subst_types};
ghost use Rattle.hol_terms.specs.TermStore.{HasTerm, term_tree};
ghost use Rattle.hol_terms.specs.Formula.{ChangesNone};
ghost use Rattle.lcf_kernel.specs.KernelState.{HasThm, concl_of, hyps_of, context_of, all_hyps_of, KeepsAll};

use crate::kernel::Kernel;
use crate::thm::ThmId;
use hol_formulas::unchanged::leaves_each;
use hol_terms::TermId;
use hol_types::Subst;
use std::alloc::AllocError;

impl<'b> Kernel<'b> {
    /// Whether types for type variables change no type variable of the context. It takes one look-up in them for each type
    /// variable of the context.
    fn keeps_context(&mut self, s: &Subst) -> Result<bool, AllocError>
        requires { HasSubst self.old.store.types s.now }
        ensures is { IfOk result (λ r. r ≡ true → ChangesNone (subst_tree self.old.store.types s.now) (context_of self.old)) }
        ensures isnt { IfOk result (λ r. r ≡ false → ChangesNone (subst_tree self.old.store.types s.now) (context_of self.old) → ⊥) }
        ensures keeps { KeepsAll self.old self.new }
    {
        let types = Vec::from_slice(self.alloc(), self.type_variables())?;
        let r = leaves_each(self, types.as_slice(), s)?;
        Ok(r)
    }

    /// Whether types for type variables change no type variable of a record's hypotheses or of the context.
    fn keeps_hyps(&mut self, a: ThmId, s: &Subst) -> Result<bool, AllocError>
        requires thm { HasThm self.old a }
        requires subst { HasSubst self.old.store.types s.now }
        ensures is { IfOk result (λ r. r ≡ true → ChangesNone (subst_tree self.old.store.types s.now) (all_hyps_of self.old a)) }
        ensures isnt { IfOk result (λ r. r ≡ false → ChangesNone (subst_tree self.old.store.types s.now) (all_hyps_of self.old a) → ⊥) }
        ensures keeps { KeepsAll self.old self.new }
    {
        let in_context = self.keeps_context(s)?;
        if !in_context {
            return Ok(false);
        }
        let r = self.keeps_own(a, s)?;
        Ok(r)
    }

    /// A conclusion with types for its type variables. None exactly where they change a type variable of the record's
    /// hypotheses or of the context.
    pub(crate) fn retyped(&mut self, a: ThmId, s: &Subst) -> Result<Option<TermId>, AllocError>
        requires thm { HasThm self.old a }
        requires subst { HasSubst self.old.store.types s.now }
        ensures none { IfOk result (λ found. IfNone found (ChangesNone (subst_tree self.old.store.types s.now) (all_hyps_of self.old a) → ⊥)) }
        ensures same { IfOk result (λ found. IfSome found (λ t. ChangesNone (subst_tree self.old.store.types s.now) (all_hyps_of self.old a))) }
        ensures there { IfOk result (λ found. IfSome found (λ t. HasTerm self.new.store t)) }
        ensures tree { IfOk result (λ found. IfSome found (λ t. term_tree self.new.store t ≡ subst_types (subst_tree self.old.store.types s.now) (concl_of self.old a))) }
        ensures keeps { KeepsAll self.old self.new }
    {
        let keeps = self.keeps_hyps(a, s)?;
        if !keeps {
            return Ok(None);
        }
        let said = self.concl(a);
        let t = self.instantiated(said, s)?;
        Ok(Some(t))
    }
}
