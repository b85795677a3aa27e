//! Rules of equality and conditionals.
ghost use Rattle.std.specs.Prelude.{◌≡◌, ◌++◌, ◌&&◌, [], true, IfOk, OnOk, IfErr};
ghost use Rattle.hol_types.specs.Ty.{BoolTy, FunTy};
ghost use Rattle.hol_terms.specs.Term.{Term, ty_of};
ghost use Rattle.hol_terms.specs.Substitution.{IsClosed, subst_bound};
ghost use Rattle.hol_terms.specs.TermStore.{HasTerm, term_tree};
ghost use Rattle.hol_terms.specs.Constants.{equation, conditional};
ghost use Rattle.hol_terms.specs.Formula.{SameMembers, without};
ghost use Rattle.lcf_kernel.specs.KernelState.{HasThm, concl_of, hyps_of, all_hyps_of, bare_of, KeepsAll};
ghost use Rattle.lcf_kernel.specs.RuleForms.{Agree, IsRedex, IsSubstitution, IsUnselected};

use crate::kernel::Kernel;
use crate::rules::RuleFault;
use crate::thm::ThmId;
use hol_terms::TermId;

impl<'b> Kernel<'b> {
    //
    //  ------------ refl
    //   |- (= t t)
    /// A term equals itself.
    #[tactic(auto, using(crate::proofs::KeepLemmas::keeps_all_same, crate::proofs::KeepLemmas::keeps_all_trans))]
    pub fn refl(&mut self, t: TermId) -> Result<ThmId, RuleFault>
        requires there { HasTerm self.old.store t }
        requires closed { IsClosed (term_tree self.old.store t) }
        ensures there { IfOk result (λ r. HasThm self.new r) }
        ensures concl { IfOk result (λ r. concl_of self.new r ≡ equation (ty_of (term_tree self.old.store t)) (term_tree self.old.store t) (term_tree self.old.store t)) }
        ensures hyps { IfOk result (λ r. hyps_of self.new r ≡ []) }
        ensures bare { IfOk result (λ r. bare_of self.new r ≡ true) }
        ensures shape { IfErr result (λ e. e ≡ RuleFault.Shape → ⊥) }
        ensures keeps { KeepsAll self.old self.new }
    {
        self.know_term(t);
        let concl = self.equation(t, t)?;
        let hyps = self.no_hyps();
        let r = self.conclude(hyps, concl, true)?;
        Ok(r)
    }

    //   G |- (= t u)    H |- b with t
    //  ------------------------------- subst      p is the lambda whose body is b
    //         G, H |- b with u
    /// Equals for equals, in the body of a lambda that marks the places. Shape exactly where the first conclusion isn't
    /// an equation, the term isn't a lambda on its type, or the second conclusion isn't the body with the left side.
    #[tactic(auto, using(crate::proofs::KeepLemmas::keeps_all_same, crate::proofs::KeepLemmas::keeps_all_trans))]
    pub fn subst(&mut self, a: ThmId, b: ThmId, p: TermId) -> Result<ThmId, RuleFault>
        requires left { HasThm self.old a }
        requires right { HasThm self.old b }
        requires there { HasTerm self.old.store p }
        requires closed { IsClosed (term_tree self.old.store p) }
        ensures there { IfOk result (λ r. HasThm self.new r) }
        ensures concl { IfOk result (λ r. (s : IsSubstitution (term_tree self.old.store p) (concl_of self.old a) (concl_of self.old b)) × (concl_of self.new r ≡ subst_bound s.body 0 s.right)) }
        ensures hyps { IfOk result (λ r. SameMembers (hyps_of self.new r) (hyps_of self.old a ++ hyps_of self.old b)) }
        ensures bare { IfOk result (λ r. bare_of self.new r ≡ (bare_of self.old a && bare_of self.old b)) }
        ensures shape { IfErr result (λ e. e ≡ RuleFault.Shape → IsSubstitution (term_tree self.old.store p) (concl_of self.old a) (concl_of self.old b) → ⊥) }
        ensures keeps { KeepsAll self.old self.new }
    {
        let Some(sides) = self.equated_by(a) else {
            return Err(RuleFault::Shape);
        };
        let Some(body) = self.body_for(p, sides.left) else {
            return Err(RuleFault::Shape);
        };
        let opened = self.opened_with(body, sides)?;
        let said = self.concl(b);
        if opened.left != said {
            return Err(RuleFault::Shape);
        }
        let hyps = self.hyps_of_both(a, b)?;
        let bare = self.both_bare(a, b);
        let r = self.conclude(hyps, opened.right, bare)?;
        Ok(r)
    }

    //   G |- (= (f v) (g v))
    //  ---------------------- ext      v is a free variable, free neither in f, in g nor in G
    //       G |- (= f g)
    /// Functions that agree on a variable of which nothing is known are equal. Shape exactly where the conclusion isn't
    /// the equation of two functions applied to a free variable, or one of them or a hypothesis, of the record or in the
    /// context, speaks of it.
    #[tactic(auto, using(crate::proofs::KeepLemmas::keeps_all_same, crate::proofs::KeepLemmas::keeps_all_trans))]
    pub fn ext(&mut self, a: ThmId, v: TermId) -> Result<ThmId, RuleFault>
        requires thm { HasThm self.old a }
        requires there { HasTerm self.old.store v }
        ensures there { IfOk result (λ r. HasThm self.new r) }
        ensures concl { IfOk result (λ r. (f : Term) × (g : Term) × (x : Agree (all_hyps_of self.old a) (concl_of self.old a) (term_tree self.old.store v) f g) × (concl_of self.new r ≡ equation (FunTy (ty_of (term_tree self.old.store v)) x.type) f g)) }
        ensures hyps { IfOk result (λ r. SameMembers (hyps_of self.new r) (hyps_of self.old a)) }
        ensures bare { IfOk result (λ r. bare_of self.new r ≡ bare_of self.old a) }
        ensures shape { IfErr result (λ e. e ≡ RuleFault.Shape → (f g : Term) → Agree (all_hyps_of self.old a) (concl_of self.old a) (term_tree self.old.store v) f g → ⊥) }
        ensures keeps { KeepsAll self.old self.new }
    {
        let found = self.agreeing(a, v)?;
        let Some(functions) = found else {
            return Err(RuleFault::Shape);
        };
        let concl = self.equation(functions.left, functions.right)?;
        let hyps = self.hyps_copy(a)?;
        let bare = self.is_bare(a);
        let r = self.conclude(hyps, concl, bare)?;
        Ok(r)
    }

    //      G |- B    H |- A
    //  ----------------------- iff_i
    //   G - A, H - B |- (= A B)
    /// The equation of two formulas, each derived from the other. The formula that each is derived from is no hypothesis
    /// then.
    #[tactic(auto, using(crate::proofs::KeepLemmas::keeps_all_same, crate::proofs::KeepLemmas::keeps_all_trans))]
    pub fn iff_i(&mut self, a: ThmId, b: ThmId) -> Result<ThmId, RuleFault>
        requires right { HasThm self.old a }
        requires left { HasThm self.old b }
        ensures there { IfOk result (λ r. HasThm self.new r) }
        ensures concl { IfOk result (λ r. concl_of self.new r ≡ equation BoolTy (concl_of self.old b) (concl_of self.old a)) }
        ensures hyps { IfOk result (λ r. SameMembers (hyps_of self.new r) (without (concl_of self.old b) (hyps_of self.old a) ++ without (concl_of self.old a) (hyps_of self.old b))) }
        ensures bare { IfOk result (λ r. bare_of self.new r ≡ (bare_of self.old a && bare_of self.old b)) }
        ensures shape { IfErr result (λ e. e ≡ RuleFault.Shape → ⊥) }
        ensures keeps { KeepsAll self.old self.new }
    {
        let left = self.concl(b);
        let right = self.concl(a);
        let concl = self.equation(left, right)?;
        let hyps = self.hyps_without_each(a, left, b, right)?;
        let bare = self.both_bare(a, b);
        let r = self.conclude(hyps, concl, bare)?;
        Ok(r)
    }

    //
    //  -------------------- beta      t is a lambda with the body b, applied to u
    //   |- (= t (b with u))
    /// A lambda applied to a term equals its body with the term. Shape exactly where the term isn't a lambda applied to
    /// a term.
    #[tactic(auto, using(crate::proofs::KeepLemmas::keeps_all_same, crate::proofs::KeepLemmas::keeps_all_trans))]
    pub fn beta(&mut self, t: TermId) -> Result<ThmId, RuleFault>
        requires there { HasTerm self.old.store t }
        requires closed { IsClosed (term_tree self.old.store t) }
        ensures there { IfOk result (λ r. HasThm self.new r) }
        ensures concl { IfOk result (λ r. (x : IsRedex (term_tree self.old.store t)) × (concl_of self.new r ≡ equation (ty_of x.body) (term_tree self.old.store t) (subst_bound x.body 0 x.argument))) }
        ensures hyps { IfOk result (λ r. hyps_of self.new r ≡ []) }
        ensures bare { IfOk result (λ r. bare_of self.new r ≡ true) }
        ensures shape { IfErr result (λ e. e ≡ RuleFault.Shape → IsRedex (term_tree self.old.store t) → ⊥) }
        ensures keeps { KeepsAll self.old self.new }
    {
        let Some(redex) = self.redex_at(t) else {
            return Err(RuleFault::Shape);
        };
        let concl = self.reduction(t, redex)?;
        let hyps = self.no_hyps();
        let r = self.conclude(hyps, concl, true)?;
        Ok(r)
    }

    //           G |- c
    //  ------------------------ ite_t      t and u are of one type
    //   G |- (= (ite c t u) t)
    /// Where the condition holds, a conditional is its first branch. Shape exactly where the branches' types differ.
    #[tactic(auto, using(crate::proofs::KeepLemmas::keeps_all_same, crate::proofs::KeepLemmas::keeps_all_trans))]
    pub fn ite_t(&mut self, a: ThmId, t: TermId, u: TermId) -> Result<ThmId, RuleFault>
        requires thm { HasThm self.old a }
        requires first { HasTerm self.old.store t }
        requires second { HasTerm self.old.store u }
        requires first_closed { IsClosed (term_tree self.old.store t) }
        requires second_closed { IsClosed (term_tree self.old.store u) }
        ensures there { IfOk result (λ r. HasThm self.new r) }
        ensures concl { IfOk result (λ r. concl_of self.new r ≡ equation (ty_of (term_tree self.old.store t)) (conditional (ty_of (term_tree self.old.store t)) (concl_of self.old a) (term_tree self.old.store t) (term_tree self.old.store u)) (term_tree self.old.store t)) }
        ensures hyps { IfOk result (λ r. SameMembers (hyps_of self.new r) (hyps_of self.old a)) }
        ensures bare { IfOk result (λ r. bare_of self.new r ≡ bare_of self.old a) }
        ensures ok { OnOk result (ty_of (term_tree self.old.store u) ≡ ty_of (term_tree self.old.store t)) }
        ensures shape { IfErr result (λ e. e ≡ RuleFault.Shape → ty_of (term_tree self.old.store u) ≡ ty_of (term_tree self.old.store t) → ⊥) }
        ensures keeps { KeepsAll self.old self.new }
    {
        if !self.are_branches(t, u) {
            return Err(RuleFault::Shape);
        }
        let condition = self.concl(a);
        let concl = self.selects(condition, t, u, t)?;
        let hyps = self.hyps_copy(a)?;
        let bare = self.is_bare(a);
        let r = self.conclude(hyps, concl, bare)?;
        Ok(r)
    }

    //        G |- (not c)
    //  ------------------------ ite_f      t and u are of one type
    //   G |- (= (ite c t u) u)
    /// Where the condition doesn't hold, a conditional is its second branch. Shape exactly where the conclusion isn't a
    /// negation or the branches' types differ.
    #[tactic(auto, using(crate::proofs::KeepLemmas::keeps_all_same, crate::proofs::KeepLemmas::keeps_all_trans))]
    pub fn ite_f(&mut self, a: ThmId, t: TermId, u: TermId) -> Result<ThmId, RuleFault>
        requires thm { HasThm self.old a }
        requires first { HasTerm self.old.store t }
        requires second { HasTerm self.old.store u }
        requires first_closed { IsClosed (term_tree self.old.store t) }
        requires second_closed { IsClosed (term_tree self.old.store u) }
        ensures there { IfOk result (λ r. HasThm self.new r) }
        ensures concl { IfOk result (λ r. (x : IsUnselected (concl_of self.old a) (term_tree self.old.store t) (term_tree self.old.store u)) × (concl_of self.new r ≡ equation (ty_of (term_tree self.old.store t)) (conditional (ty_of (term_tree self.old.store t)) x.condition (term_tree self.old.store t) (term_tree self.old.store u)) (term_tree self.old.store u))) }
        ensures hyps { IfOk result (λ r. SameMembers (hyps_of self.new r) (hyps_of self.old a)) }
        ensures bare { IfOk result (λ r. bare_of self.new r ≡ bare_of self.old a) }
        ensures shape { IfErr result (λ e. e ≡ RuleFault.Shape → IsUnselected (concl_of self.old a) (term_tree self.old.store t) (term_tree self.old.store u) → ⊥) }
        ensures keeps { KeepsAll self.old self.new }
    {
        let Some(condition) = self.negated_by(a) else {
            return Err(RuleFault::Shape);
        };
        if !self.are_branches(t, u) {
            return Err(RuleFault::Shape);
        }
        let concl = self.selects(condition, t, u, u)?;
        let hyps = self.hyps_copy(a)?;
        let bare = self.is_bare(a);
        let r = self.conclude(hyps, concl, bare)?;
        Ok(r)
    }
}
