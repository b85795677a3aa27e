//! Rules that start from a hypothesis or a fact.
ghost use Rattle.std.specs.Prelude.{◌≡◌, ◌<◌, length, IfOk, OnOk, IfErr, true, false, [], ◌∷◌};
ghost use Rattle.hol_types.specs.Ty.{BoolTy};
ghost use Rattle.hol_terms.specs.Term.{ty_of};
ghost use Rattle.hol_types.specs.TypeSubst.{HasSubst, subst_tree};
ghost use Rattle.hol_terms.specs.Substitution.{IsClosed, subst_types};
ghost use Rattle.hol_terms.specs.TermStore.{HasTerm, term_tree};
ghost use Rattle.lcf_kernel.specs.KernelState.{HasThm, concl_of, hyps_of, bare_of, fact_of, context_of, IsOutside, KeepsAll};

use crate::kernel::Kernel;
use crate::rules::RuleFault;
use crate::thm::ThmId;
use hol_terms::TermId;
use hol_types::Subst;

impl<'b> Kernel<'b> {
    //   t is of type Bool
    //  ------------------- assume
    //        t |- t
    /// A formula under itself. Where it stands in the context, the record has no hypothesis outside the context.
    /// Shape exactly where the term isn't of type Bool.
    #[tactic(auto, using(crate::proofs::KeepLemmas::keeps_all_same, crate::proofs::KeepLemmas::keeps_all_trans))]
    pub fn assume(&mut self, t: TermId) -> Result<ThmId, RuleFault>
        requires there { HasTerm self.old.store t }
        requires closed { IsClosed (term_tree self.old.store t) }
        ensures there { IfOk result (λ r. HasThm self.new r) }
        ensures concl { IfOk result (λ r. concl_of self.new r ≡ term_tree self.old.store t) }
        ensures hyps { IfOk result (λ r. IsOutside (context_of self.old) (term_tree self.old.store t ∷ []) (hyps_of self.new r)) }
        ensures bare { IfOk result (λ r. bare_of self.new r ≡ true) }
        ensures ok { OnOk result (ty_of (term_tree self.old.store t) ≡ BoolTy) }
        ensures shape { IfErr result (λ e. e ≡ RuleFault.Shape → ty_of (term_tree self.old.store t) ≡ BoolTy → ⊥) }
        ensures keeps { KeepsAll self.old self.new }
    {
        if !self.is_formula(t) {
            return Err(RuleFault::Shape);
        }
        let hyps = self.outside_context(&[t])?;
        let r = self.conclude(hyps, t, true)?;
        Ok(r)
    }

    //   fact i is A
    //  ------------- fact
    //     |- A s
    /// A fact with types for its type variables, from nothing. Facts are counted from 0. Shape exactly where there is
    /// no such fact.
    #[tactic(auto, using(crate::proofs::KeepLemmas::keeps_all_same, crate::proofs::KeepLemmas::keeps_all_trans))]
    pub fn fact(&mut self, i: u32, s: &Subst) -> Result<ThmId, RuleFault>
        requires { HasSubst self.old.store.types s.now }
        ensures there { IfOk result (λ r. HasThm self.new r) }
        ensures concl { IfOk result (λ r. concl_of self.new r ≡ subst_types (subst_tree self.old.store.types s.now) (fact_of self.old i)) }
        ensures hyps { IfOk result (λ r. hyps_of self.new r ≡ []) }
        ensures bare { IfOk result (λ r. bare_of self.new r ≡ false) }
        ensures ok { OnOk result (i < length self.old.facts) }
        ensures shape { IfErr result (λ e. e ≡ RuleFault.Shape → i < length self.old.facts → ⊥) }
        ensures keeps { KeepsAll self.old self.new }
    {
        let Some(fact) = self.fact_at(i) else {
            return Err(RuleFault::Shape);
        };
        let concl = self.instantiated(fact, s)?;
        let hyps = self.no_hyps();
        let r = self.conclude(hyps, concl, false)?;
        Ok(r)
    }

    //    G |- A
    //  ----------- weaken      t is of type Bool
    //   G, t |- A
    /// A conclusion under one hypothesis more. Where that stands in the context, the record has no further hypothesis.
    /// Shape exactly where the term isn't of type Bool.
    #[tactic(auto, using(crate::proofs::KeepLemmas::keeps_all_same, crate::proofs::KeepLemmas::keeps_all_trans))]
    pub fn weaken(&mut self, a: ThmId, t: TermId) -> Result<ThmId, RuleFault>
        requires thm { HasThm self.old a }
        requires there { HasTerm self.old.store t }
        requires closed { IsClosed (term_tree self.old.store t) }
        ensures there { IfOk result (λ r. HasThm self.new r) }
        ensures concl { IfOk result (λ r. concl_of self.new r ≡ concl_of self.old a) }
        ensures hyps { IfOk result (λ r. IsOutside (context_of self.old) (term_tree self.old.store t ∷ hyps_of self.old a) (hyps_of self.new r)) }
        ensures bare { IfOk result (λ r. bare_of self.new r ≡ bare_of self.old a) }
        ensures ok { OnOk result (ty_of (term_tree self.old.store t) ≡ BoolTy) }
        ensures shape { IfErr result (λ e. e ≡ RuleFault.Shape → ty_of (term_tree self.old.store t) ≡ BoolTy → ⊥) }
        ensures keeps { KeepsAll self.old self.new }
    {
        if !self.is_formula(t) {
            return Err(RuleFault::Shape);
        }
        let hyps = self.hyps_with(a, t)?;
        let concl = self.concl(a);
        let bare = self.is_bare(a);
        let r = self.conclude(hyps, concl, bare)?;
        Ok(r)
    }
}
