//! Rules of types.
ghost use Rattle.std.specs.Prelude.{◌≡◌, IfOk, OnOk, IfErr};
ghost use Rattle.hol_types.specs.TypeSubst.{HasSubst, subst_tree};
ghost use Rattle.hol_terms.specs.Substitution.{subst_types};
ghost use Rattle.hol_terms.specs.Formula.{SameMembers, ChangesNone};
ghost use Rattle.lcf_kernel.specs.KernelState.{HasThm, concl_of, hyps_of, all_hyps_of, bare_of, KeepsAll};

use crate::kernel::Kernel;
use crate::rules::RuleFault;
use crate::thm::ThmId;
use hol_types::Subst;

impl<'b> Kernel<'b> {
    //    G |- A
    //  ---------- inst_type      no type variable that s changes is in G
    //   G |- A s
    /// A conclusion with types for its type variables. Shape exactly where they change a type variable of a hypothesis,
    /// of the record or in the context.
    #[tactic(auto, using(crate::proofs::KeepLemmas::keeps_all_same, crate::proofs::KeepLemmas::keeps_all_trans))]
    pub fn inst_type(&mut self, a: ThmId, s: &Subst) -> Result<ThmId, RuleFault>
        requires thm { HasThm self.old a }
        requires subst { HasSubst self.old.store.types s.now }
        ensures there { IfOk result (λ r. HasThm self.new r) }
        ensures concl { IfOk result (λ r. concl_of self.new r ≡ subst_types (subst_tree self.old.store.types s.now) (concl_of self.old a)) }
        ensures hyps { IfOk result (λ r. SameMembers (hyps_of self.new r) (hyps_of self.old a)) }
        ensures bare { IfOk result (λ r. bare_of self.new r ≡ bare_of self.old a) }
        ensures ok { OnOk result (ChangesNone (subst_tree self.old.store.types s.now) (all_hyps_of self.old a)) }
        ensures shape { IfErr result (λ e. e ≡ RuleFault.Shape → ChangesNone (subst_tree self.old.store.types s.now) (all_hyps_of self.old a) → ⊥) }
        ensures keeps { KeepsAll self.old self.new }
    {
        let found = self.retyped(a, s)?;
        let Some(concl) = found else {
            return Err(RuleFault::Shape);
        };
        let hyps = self.hyps_copy(a)?;
        let bare = self.is_bare(a);
        let r = self.conclude(hyps, concl, bare)?;
        Ok(r)
    }
}
