//! Rules of quantifiers and choice.
ghost use Rattle.std.specs.Prelude.{◌≡◌, ◌++◌, ◌&&◌, IfOk, OnOk, IfErr};
ghost use Rattle.hol_terms.specs.Term.{LamTm, ty_of};
ghost use Rattle.hol_terms.specs.Substitution.{IsClosed, subst_bound};
ghost use Rattle.hol_terms.specs.TermStore.{HasTerm, term_tree};
ghost use Rattle.hol_terms.specs.Constants.{for_all, chosen};
ghost use Rattle.hol_terms.specs.Derivable.{applied, abstraction};
ghost use Rattle.hol_terms.specs.Formula.{SameMembers, without};
ghost use Rattle.lcf_kernel.specs.KernelState.{HasThm, concl_of, hyps_of, all_hyps_of, bare_of, KeepsAll};
ghost use Rattle.lcf_kernel.specs.RuleForms.{IsGeneral, IsUniversal, IsWitness, IsElimination, IsExistence};

use crate::kernel::Kernel;
use crate::rules::RuleFault;
use crate::thm::ThmId;
use hol_terms::TermId;

impl<'b> Kernel<'b> {
    //    G |- all p
    //  --------------- all_e      p is the lambda whose body is b; where p is no lambda, p t
    //   G |- b with t
    /// What holds of all holds of the term. Shape exactly where the conclusion doesn't say that a predicate on the
    /// term's type holds of each.
    #[tactic(auto, using(crate::proofs::KeepLemmas::keeps_all_same, crate::proofs::KeepLemmas::keeps_all_trans))]
    pub fn all_e(&mut self, a: ThmId, t: TermId) -> Result<ThmId, RuleFault>
        requires thm { HasThm self.old a }
        requires there { HasTerm self.old.store t }
        requires closed { IsClosed (term_tree self.old.store t) }
        ensures there { IfOk result (λ r. HasThm self.new r) }
        ensures concl { IfOk result (λ r. (u : IsUniversal (concl_of self.old a) (term_tree self.old.store t)) × (concl_of self.new r ≡ applied u.predicate (term_tree self.old.store t))) }
        ensures hyps { IfOk result (λ r. SameMembers (hyps_of self.new r) (hyps_of self.old a)) }
        ensures bare { IfOk result (λ r. bare_of self.new r ≡ bare_of self.old a) }
        ensures shape { IfErr result (λ e. e ≡ RuleFault.Shape → IsUniversal (concl_of self.old a) (term_tree self.old.store t) → ⊥) }
        ensures keeps { KeepsAll self.old self.new }
    {
        self.know_term(t);
        let Some(p) = self.predicate_for(a, t) else {
            return Err(RuleFault::Shape);
        };
        let concl = self.said_of(p, t)?;
        let hyps = self.hyps_copy(a)?;
        let bare = self.is_bare(a);
        let r = self.conclude(hyps, concl, bare)?;
        Ok(r)
    }

    //   G |- b with t
    //  --------------- ex_i      e is ex p, and p is the lambda whose body is b
    //       G |- e
    /// What holds of the term holds of some. Shape exactly where e doesn't say that a lambda on the term's type holds of
    /// some, or the conclusion isn't the lambda's body with the term.
    #[tactic(auto, using(crate::proofs::KeepLemmas::keeps_all_same, crate::proofs::KeepLemmas::keeps_all_trans))]
    pub fn ex_i(&mut self, a: ThmId, e: TermId, t: TermId) -> Result<ThmId, RuleFault>
        requires thm { HasThm self.old a }
        requires there { HasTerm self.old.store e }
        requires closed { IsClosed (term_tree self.old.store e) }
        requires witness { HasTerm self.old.store t }
        requires witness_closed { IsClosed (term_tree self.old.store t) }
        ensures there { IfOk result (λ r. HasThm self.new r) }
        ensures concl { IfOk result (λ r. concl_of self.new r ≡ term_tree self.old.store e) }
        ensures hyps { IfOk result (λ r. SameMembers (hyps_of self.new r) (hyps_of self.old a)) }
        ensures bare { IfOk result (λ r. bare_of self.new r ≡ bare_of self.old a) }
        ensures ok { OnOk result (IsWitness (concl_of self.old a) (term_tree self.old.store e) (term_tree self.old.store t)) }
        ensures shape { IfErr result (λ x. x ≡ RuleFault.Shape → IsWitness (concl_of self.old a) (term_tree self.old.store e) (term_tree self.old.store t) → ⊥) }
        ensures keeps { KeepsAll self.old self.new }
    {
        self.know_term(t);
        let Some(body) = self.body_of_some(e, t) else {
            return Err(RuleFault::Shape);
        };
        let opened = self.opened(body, t)?;
        let said = self.concl(a);
        if opened != said {
            return Err(RuleFault::Shape);
        }
        let hyps = self.hyps_copy(a)?;
        let bare = self.is_bare(a);
        let r = self.conclude(hyps, e, bare)?;
        Ok(r)
    }

    //   G |- ex p    H |- C
    //  ----------------------------- ex_e      p is the lambda whose body is b; v is a free variable, and free in
    //   G, H - (b with v) |- C                 neither p, nor C, nor H but for (b with v)
    /// What follows of one of which nothing is known but that a lambda holds of it, where a lambda holds of some; that
    /// it does is no hypothesis then. Shape exactly where the term isn't a free variable, the first conclusion doesn't
    /// say that a lambda on the variable's type holds of some, or the lambda speaks of the variable, or the second
    /// conclusion, or a hypothesis of it, of the record or in the context, other than the lambda's body with the
    /// variable.
    #[tactic(auto, using(crate::proofs::KeepLemmas::keeps_all_same, crate::proofs::KeepLemmas::keeps_all_trans))]
    pub fn ex_e(&mut self, a: ThmId, b: ThmId, v: TermId) -> Result<ThmId, RuleFault>
        requires some { HasThm self.old a }
        requires thm { HasThm self.old b }
        requires there { HasTerm self.old.store v }
        ensures there { IfOk result (λ r. HasThm self.new r) }
        ensures concl { IfOk result (λ r. concl_of self.new r ≡ concl_of self.old b) }
        ensures hyps { IfOk result (λ r. (x : IsElimination (concl_of self.old a) (concl_of self.old b) (all_hyps_of self.old b) (term_tree self.old.store v)) × SameMembers (hyps_of self.new r) (hyps_of self.old a ++ without (subst_bound x.body 0 (term_tree self.old.store v)) (hyps_of self.old b))) }
        ensures bare { IfOk result (λ r. bare_of self.new r ≡ (bare_of self.old a && bare_of self.old b)) }
        ensures shape { IfErr result (λ e. e ≡ RuleFault.Shape → IsElimination (concl_of self.old a) (concl_of self.old b) (all_hyps_of self.old b) (term_tree self.old.store v) → ⊥) }
        ensures keeps { KeepsAll self.old self.new }
    {
        let Some(body) = self.lambda_for(a, v) else {
            return Err(RuleFault::Shape);
        };
        let opened = self.opened(body, v)?;
        let arbitrary = self.is_arbitrary(b, v, body, opened)?;
        if !arbitrary {
            return Err(RuleFault::Shape);
        }
        let concl = self.concl(b);
        let hyps = self.hyps_beside(a, b, opened)?;
        let bare = self.both_bare(a, b);
        let r = self.conclude(hyps, concl, bare)?;
        Ok(r)
    }

    //         G |- ex p
    //  ---------------------- choice      p is the lambda whose body is b
    //   G |- b with choice p
    /// Where a lambda holds of some, it holds of the chosen one. Shape exactly where the conclusion doesn't say that a
    /// lambda holds of some.
    #[tactic(auto, using(crate::proofs::KeepLemmas::keeps_all_same, crate::proofs::KeepLemmas::keeps_all_trans))]
    pub fn choice(&mut self, a: ThmId) -> Result<ThmId, RuleFault>
        requires { HasThm self.old a }
        ensures there { IfOk result (λ r. HasThm self.new r) }
        ensures concl { IfOk result (λ r. (x : IsExistence (concl_of self.old a)) × (concl_of self.new r ≡ subst_bound x.body 0 (chosen x.type (LamTm x.type x.body)))) }
        ensures hyps { IfOk result (λ r. SameMembers (hyps_of self.new r) (hyps_of self.old a)) }
        ensures bare { IfOk result (λ r. bare_of self.new r ≡ bare_of self.old a) }
        ensures shape { IfErr result (λ e. e ≡ RuleFault.Shape → IsExistence (concl_of self.old a) → ⊥) }
        ensures keeps { KeepsAll self.old self.new }
    {
        let Some(lambda) = self.some_of(a) else {
            return Err(RuleFault::Shape);
        };
        let concl = self.chosen_one(lambda)?;
        let hyps = self.hyps_copy(a)?;
        let bare = self.is_bare(a);
        let r = self.conclude(hyps, concl, bare)?;
        Ok(r)
    }

    //        G |- A
    //  ----------------- all_i      v is a free variable, not free in G
    //   G |- all (v. A)
    /// What is derived of a variable of which no hypothesis speaks holds of all. Shape exactly where the term isn't a
    /// free variable or a hypothesis, of the record or in the context, speaks of it.
    #[tactic(auto, using(crate::proofs::KeepLemmas::keeps_all_same, crate::proofs::KeepLemmas::keeps_all_trans))]
    pub fn all_i(&mut self, a: ThmId, v: TermId) -> Result<ThmId, RuleFault>
        requires thm { HasThm self.old a }
        requires there { HasTerm self.old.store v }
        ensures there { IfOk result (λ r. HasThm self.new r) }
        ensures concl { IfOk result (λ r. concl_of self.new r ≡ for_all (ty_of (term_tree self.old.store v)) (abstraction (term_tree self.old.store v) (concl_of self.old a))) }
        ensures hyps { IfOk result (λ r. SameMembers (hyps_of self.new r) (hyps_of self.old a)) }
        ensures bare { IfOk result (λ r. bare_of self.new r ≡ bare_of self.old a) }
        ensures ok { OnOk result (IsGeneral (all_hyps_of self.old a) (term_tree self.old.store v)) }
        ensures shape { IfErr result (λ e. e ≡ RuleFault.Shape → IsGeneral (all_hyps_of self.old a) (term_tree self.old.store v) → ⊥) }
        ensures keeps { KeepsAll self.old self.new }
    {
        let general = self.is_general(a, v)?;
        if !general {
            return Err(RuleFault::Shape);
        }
        let said = self.concl(a);
        let concl = self.generalised(v, said)?;
        let hyps = self.hyps_copy(a)?;
        let bare = self.is_bare(a);
        let r = self.conclude(hyps, concl, bare)?;
        Ok(r)
    }
}
