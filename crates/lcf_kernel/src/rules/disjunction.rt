//! Rules of disjunction.
ghost use Rattle.std.specs.Prelude.{◌≡◌, ◌++◌, ◌&&◌, IfOk, OnOk, IfErr};
ghost use Rattle.hol_types.specs.Ty.{BoolTy};
ghost use Rattle.hol_terms.specs.Term.{Term, ty_of};
ghost use Rattle.hol_terms.specs.Substitution.{IsClosed};
ghost use Rattle.hol_terms.specs.TermStore.{HasTerm, term_tree};
ghost use Rattle.hol_terms.specs.Constants.{disjunction};
ghost use Rattle.hol_terms.specs.Formula.{SameMembers, without};
ghost use Rattle.lcf_kernel.specs.KernelState.{HasThm, concl_of, hyps_of, bare_of, AreCases, KeepsAll};

use crate::kernel::Kernel;
use crate::rules::RuleFault;
use crate::thm::ThmId;
use hol_terms::TermId;

impl<'b> Kernel<'b> {
    //      G |- A
    //  --------------- or_i1      t is of type Bool
    //   G |- (or A t)
    /// A conclusion or a formula. Shape exactly where the term isn't of type Bool.
    #[tactic(auto, using(crate::proofs::KeepLemmas::keeps_all_same, crate::proofs::KeepLemmas::keeps_all_trans))]
    pub fn or_i1(&mut self, a: ThmId, t: TermId) -> Result<ThmId, RuleFault>
        requires thm { HasThm self.old a }
        requires there { HasTerm self.old.store t }
        requires closed { IsClosed (term_tree self.old.store t) }
        ensures there { IfOk result (λ r. HasThm self.new r) }
        ensures concl { IfOk result (λ r. concl_of self.new r ≡ disjunction (concl_of self.old a) (term_tree self.old.store t)) }
        ensures hyps { IfOk result (λ r. SameMembers (hyps_of self.new r) (hyps_of self.old a)) }
        ensures bare { IfOk result (λ r. bare_of self.new r ≡ bare_of self.old a) }
        ensures ok { OnOk result (ty_of (term_tree self.old.store t) ≡ BoolTy) }
        ensures shape { IfErr result (λ e. e ≡ RuleFault.Shape → ty_of (term_tree self.old.store t) ≡ BoolTy → ⊥) }
        ensures keeps { KeepsAll self.old self.new }
    {
        if !self.is_formula(t) {
            return Err(RuleFault::Shape);
        }
        let given = self.concl(a);
        let concl = self.disjunction(given, t)?;
        let hyps = self.hyps_copy(a)?;
        let bare = self.is_bare(a);
        let r = self.conclude(hyps, concl, bare)?;
        Ok(r)
    }

    //      G |- A
    //  --------------- or_i2      t is of type Bool
    //   G |- (or t A)
    /// A formula or a conclusion. Shape exactly where the term isn't of type Bool.
    #[tactic(auto, using(crate::proofs::KeepLemmas::keeps_all_same, crate::proofs::KeepLemmas::keeps_all_trans))]
    pub fn or_i2(&mut self, t: TermId, a: ThmId) -> Result<ThmId, RuleFault>
        requires thm { HasThm self.old a }
        requires there { HasTerm self.old.store t }
        requires closed { IsClosed (term_tree self.old.store t) }
        ensures there { IfOk result (λ r. HasThm self.new r) }
        ensures concl { IfOk result (λ r. concl_of self.new r ≡ disjunction (term_tree self.old.store t) (concl_of self.old a)) }
        ensures hyps { IfOk result (λ r. SameMembers (hyps_of self.new r) (hyps_of self.old a)) }
        ensures bare { IfOk result (λ r. bare_of self.new r ≡ bare_of self.old a) }
        ensures ok { OnOk result (ty_of (term_tree self.old.store t) ≡ BoolTy) }
        ensures shape { IfErr result (λ e. e ≡ RuleFault.Shape → ty_of (term_tree self.old.store t) ≡ BoolTy → ⊥) }
        ensures keeps { KeepsAll self.old self.new }
    {
        if !self.is_formula(t) {
            return Err(RuleFault::Shape);
        }
        let given = self.concl(a);
        let concl = self.disjunction(t, given)?;
        let hyps = self.hyps_copy(a)?;
        let bare = self.is_bare(a);
        let r = self.conclude(hyps, concl, bare)?;
        Ok(r)
    }

    //   G |- (or A B)    H |- C    K |- C
    //  ----------------------------------- or_e
    //        G, H - A, K - B |- C
    /// What follows in both cases of a disjunction; the formula of a case is no hypothesis of it then. Shape exactly
    /// where the first conclusion isn't a disjunction or the others differ.
    #[tactic(auto, using(crate::proofs::KeepLemmas::keeps_all_same, crate::proofs::KeepLemmas::keeps_all_trans))]
    pub fn or_e(&mut self, a: ThmId, b: ThmId, c: ThmId) -> Result<ThmId, RuleFault>
        requires either { HasThm self.old a }
        requires first { HasThm self.old b }
        requires second { HasThm self.old c }
        ensures there { IfOk result (λ r. HasThm self.new r) }
        ensures concl { IfOk result (λ r. concl_of self.new r ≡ concl_of self.old b) }
        ensures hyps { IfOk result (λ r. (p q : Term) → concl_of self.old a ≡ disjunction p q → SameMembers (hyps_of self.new r) (hyps_of self.old a ++ without p (hyps_of self.old b) ++ without q (hyps_of self.old c))) }
        ensures bare { IfOk result (λ r. bare_of self.new r ≡ ((bare_of self.old a && bare_of self.old b) && bare_of self.old c)) }
        ensures ok { OnOk result (AreCases self.old a b c) }
        ensures shape { IfErr result (λ e. e ≡ RuleFault.Shape → AreCases self.old a b c → ⊥) }
        ensures keeps { KeepsAll self.old self.new }
    {
        let Some(cases) = self.disjuncts_of(a) else {
            return Err(RuleFault::Shape);
        };
        let concl = self.concl(b);
        let other = self.concl(c);
        if other != concl {
            return Err(RuleFault::Shape);
        }
        let hyps = self.hyps_of_cases(a, b, c, cases)?;
        let bare = self.all_bare(a, b, c);
        let r = self.conclude(hyps, concl, bare)?;
        Ok(r)
    }
}
