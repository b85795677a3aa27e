//! Rules of negation, truth and falsity.
ghost use Rattle.std.specs.Prelude.{◌≡◌, ◌++◌, ◌&&◌, [], true, IfOk, OnOk, IfErr};
ghost use Rattle.hol_terms.specs.Substitution.{IsClosed};
ghost use Rattle.hol_terms.specs.TermStore.{HasTerm, term_tree};
ghost use Rattle.hol_terms.specs.Constants.{negation, true_tm, false_tm};
ghost use Rattle.hol_terms.specs.Formula.{SameMembers, without};
ghost use Rattle.lcf_kernel.specs.KernelState.{HasThm, concl_of, hyps_of, bare_of, KeepsAll, IsRefutation};

use crate::kernel::Kernel;
use crate::rules::RuleFault;
use crate::thm::ThmId;
use hol_terms::TermId;

impl<'b> Kernel<'b> {
    //      G |- false
    //  ------------------- not_i      t is of type Bool
    //   G - t |- (not t)
    /// The negation of a formula that leads to `false`; the formula is no hypothesis then. Shape exactly where the
    /// conclusion isn't `false` or the term isn't of type Bool.
    #[tactic(auto, using(crate::proofs::KeepLemmas::keeps_all_same, crate::proofs::KeepLemmas::keeps_all_trans))]
    pub fn not_i(&mut self, a: ThmId, t: TermId) -> Result<ThmId, RuleFault>
        requires thm { HasThm self.old a }
        requires there { HasTerm self.old.store t }
        requires closed { IsClosed (term_tree self.old.store t) }
        ensures there { IfOk result (λ r. HasThm self.new r) }
        ensures concl { IfOk result (λ r. concl_of self.new r ≡ negation (term_tree self.old.store t)) }
        ensures hyps { IfOk result (λ r. SameMembers (hyps_of self.new r) (without (term_tree self.old.store t) (hyps_of self.old a))) }
        ensures bare { IfOk result (λ r. bare_of self.new r ≡ bare_of self.old a) }
        ensures ok { OnOk result (IsRefutation self.old a t) }
        ensures shape { IfErr result (λ e. e ≡ RuleFault.Shape → IsRefutation self.old a t → ⊥) }
        ensures keeps { KeepsAll self.old self.new }
    {
        if !self.concludes_false(a) {
            return Err(RuleFault::Shape);
        }
        if !self.is_formula(t) {
            return Err(RuleFault::Shape);
        }
        let concl = self.negation(t)?;
        let hyps = self.hyps_without(a, t)?;
        let bare = self.is_bare(a);
        let r = self.conclude(hyps, concl, bare)?;
        Ok(r)
    }

    //   G |- (not A)    H |- A
    //  ------------------------ not_e
    //        G, H |- false
    /// From a formula and its negation, `false`. Shape exactly where the first conclusion isn't the negation of the
    /// second.
    #[tactic(auto, using(crate::proofs::KeepLemmas::keeps_all_same, crate::proofs::KeepLemmas::keeps_all_trans))]
    pub fn not_e(&mut self, a: ThmId, b: ThmId) -> Result<ThmId, RuleFault>
        requires left { HasThm self.old a }
        requires right { HasThm self.old b }
        ensures there { IfOk result (λ r. HasThm self.new r) }
        ensures concl { IfOk result (λ r. concl_of self.new r ≡ false_tm) }
        ensures hyps { IfOk result (λ r. SameMembers (hyps_of self.new r) (hyps_of self.old a ++ hyps_of self.old b)) }
        ensures bare { IfOk result (λ r. bare_of self.new r ≡ (bare_of self.old a && bare_of self.old b)) }
        ensures ok { OnOk result (concl_of self.old a ≡ negation (concl_of self.old b)) }
        ensures shape { IfErr result (λ e. e ≡ RuleFault.Shape → concl_of self.old a ≡ negation (concl_of self.old b) → ⊥) }
        ensures keeps { KeepsAll self.old self.new }
    {
        let Some(part) = self.negated_by(a) else {
            return Err(RuleFault::Shape);
        };
        let other = self.concl(b);
        if part != other {
            return Err(RuleFault::Shape);
        }
        let hyps = self.hyps_of_both(a, b)?;
        let bare = self.both_bare(a, b);
        let concl = self.constants().falsity;
        let r = self.conclude(hyps, concl, bare)?;
        Ok(r)
    }

    //
    //  --------- true_i
    //   |- true
    /// `true`, from nothing.
    #[tactic(auto, using(crate::proofs::KeepLemmas::keeps_all_same, crate::proofs::KeepLemmas::keeps_all_trans))]
    pub fn true_i(&mut self) -> Result<ThmId, RuleFault>
        ensures there { IfOk result (λ r. HasThm self.new r) }
        ensures concl { IfOk result (λ r. concl_of self.new r ≡ true_tm) }
        ensures hyps { IfOk result (λ r. hyps_of self.new r ≡ []) }
        ensures bare { IfOk result (λ r. bare_of self.new r ≡ true) }
        ensures shape { IfErr result (λ e. e ≡ RuleFault.Shape → ⊥) }
        ensures keeps { KeepsAll self.old self.new }
    {
        let concl = self.constants().truth;
        let hyps = self.no_hyps();
        let r = self.conclude(hyps, concl, true)?;
        Ok(r)
    }

    //   G |- false
    //  ------------ false_e      t is of type Bool
    //     G |- t
    /// From `false`, each formula. Shape exactly where the conclusion isn't `false` or the term isn't of type Bool.
    #[tactic(auto, using(crate::proofs::KeepLemmas::keeps_all_same, crate::proofs::KeepLemmas::keeps_all_trans))]
    pub fn false_e(&mut self, a: ThmId, t: TermId) -> Result<ThmId, RuleFault>
        requires thm { HasThm self.old a }
        requires there { HasTerm self.old.store t }
        requires closed { IsClosed (term_tree self.old.store t) }
        ensures there { IfOk result (λ r. HasThm self.new r) }
        ensures concl { IfOk result (λ r. concl_of self.new r ≡ term_tree self.old.store t) }
        ensures hyps { IfOk result (λ r. SameMembers (hyps_of self.new r) (hyps_of self.old a)) }
        ensures bare { IfOk result (λ r. bare_of self.new r ≡ bare_of self.old a) }
        ensures ok { OnOk result (IsRefutation self.old a t) }
        ensures shape { IfErr result (λ e. e ≡ RuleFault.Shape → IsRefutation self.old a t → ⊥) }
        ensures keeps { KeepsAll self.old self.new }
    {
        if !self.concludes_false(a) {
            return Err(RuleFault::Shape);
        }
        if !self.is_formula(t) {
            return Err(RuleFault::Shape);
        }
        let hyps = self.hyps_copy(a)?;
        let bare = self.is_bare(a);
        let r = self.conclude(hyps, t, bare)?;
        Ok(r)
    }

    //        G |- false
    //  --------------------- classical      t is of type Bool
    //   G - (not t) |- t
    /// A formula whose negation leads to `false`; the negation is no hypothesis then. Shape exactly where the
    /// conclusion isn't `false` or the term isn't of type Bool.
    #[tactic(auto, using(crate::proofs::KeepLemmas::keeps_all_same, crate::proofs::KeepLemmas::keeps_all_trans))]
    pub fn classical(&mut self, a: ThmId, t: TermId) -> Result<ThmId, RuleFault>
        requires thm { HasThm self.old a }
        requires there { HasTerm self.old.store t }
        requires closed { IsClosed (term_tree self.old.store t) }
        ensures there { IfOk result (λ r. HasThm self.new r) }
        ensures concl { IfOk result (λ r. concl_of self.new r ≡ term_tree self.old.store t) }
        ensures hyps { IfOk result (λ r. SameMembers (hyps_of self.new r) (without (negation (term_tree self.old.store t)) (hyps_of self.old a))) }
        ensures bare { IfOk result (λ r. bare_of self.new r ≡ bare_of self.old a) }
        ensures ok { OnOk result (IsRefutation self.old a t) }
        ensures shape { IfErr result (λ e. e ≡ RuleFault.Shape → IsRefutation self.old a t → ⊥) }
        ensures keeps { KeepsAll self.old self.new }
    {
        if !self.concludes_false(a) {
            return Err(RuleFault::Shape);
        }
        if !self.is_formula(t) {
            return Err(RuleFault::Shape);
        }
        let negation = self.negation(t)?;
        let hyps = self.hyps_without(a, negation)?;
        let bare = self.is_bare(a);
        let r = self.conclude(hyps, t, bare)?;
        Ok(r)
    }
}
