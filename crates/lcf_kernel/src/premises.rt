//! What rules ask of their premises, and what they make of them.
ghost use Rattle.std.specs.Prelude.{◌≡◌, ◌<◌, ◌↔◌, [], ◌++◌, ◌∷◌, ◌&&◌, length, slice_index, IsTrue, IfOk, IfSome, IfNone};
ghost use Rattle.hol_types.specs.Ty.{BoolTy};
ghost use Rattle.hol_terms.specs.Term.{Term, ty_of};
ghost use Rattle.hol_types.specs.TypeSubst.{HasSubst, subst_tree};
ghost use Rattle.hol_terms.specs.Substitution.{IsClosed, subst_types};
ghost use Rattle.hol_terms.specs.TermStore.{HasTerm, TermsApart, term_tree};
ghost use Rattle.hol_terms.specs.Formula.{IsFormula, without};
ghost use Rattle.hol_terms.specs.Constants.{implication, conjunction, disjunction, negation, false_tm};
ghost use Rattle.hol_formulas.specs.Formulas.{trees, HasFormula, HasFormulas};
ghost use Rattle.lcf_kernel.specs.KernelState.{HasThm, concl_of, hyps_of, bare_of, context_of, AreHyps, IsKernel, IsOutside, GivesHyps, KeepsAll};

mod binder;
mod equality;
mod types;

use crate::hyps::{copied, union, without};
use crate::kernel::Kernel;
use crate::thm::ThmId;
use hol_formulas::formula::{
    Sides, and_parts, imp_parts, is_bool, is_false, make_and, make_imp, make_not, make_or,
    not_part, or_parts,
};
use hol_terms::{TermId, Terms};
use hol_types::{List, Subst};
use std::alloc::AllocError;

impl<'b> Kernel<'b> {
    /// Whether a closed term is a formula.
    pub(crate) fn is_formula(&self, t: TermId) -> bool
        requires there { HasTerm self.now.store t }
        requires closed { IsClosed (term_tree self.now.store t) }
        ensures is { IsTrue result ↔ (ty_of (term_tree self.now.store t) ≡ BoolTy) }
        ensures formula { IsTrue result → IsFormula (term_tree self.now.store t) }
    {
        is_bool(self, t)
    }

    /// The fact of a number.
    pub(crate) fn fact_at(&self, i: u32) -> Option<TermId>
        ensures none { IfNone result (i < length self.now.facts → ⊥) }
        ensures below { IfSome result (λ t. i < length self.now.facts) }
        ensures is { IfSome result (λ t. t ≡ slice_index self.now.facts i) }
        ensures formulas { HasFormulas self.now.store self.now.facts }
    {
        self.facts().get(i as usize).copied()
    }

    /// A formula with types for its type variables.
    pub(crate) fn instantiated(&mut self, t: TermId, s: &Subst) -> Result<TermId, AllocError>
        requires formula { HasFormula self.old.store t }
        requires subst { HasSubst self.old.store.types s.now }
        ensures there { IfOk result (λ r. HasTerm self.new.store r) }
        ensures tree { IfOk result (λ r. term_tree self.new.store r ≡ subst_types (subst_tree self.old.store.types s.now) (term_tree self.old.store t)) }
        ensures keeps { KeepsAll self.old self.new }
    {
        self.know_apart();
        let r = self.instantiate(t, s)?;
        Ok(r)
    }

    /// No hypotheses.
    pub(crate) fn no_hyps(&self) -> List<TermId>
        ensures empty { result ≡ [] }
        ensures gives { GivesHyps self.now result [] }
        ensures lawful { IsKernel self.now }
    {
        self.know_apart();
        List::new(Vec::new(self.alloc()))
    }

    /// The sides of a conclusion that is an implication.
    pub(crate) fn sides_of(&self, a: ThmId) -> Option<Sides>
        requires { HasThm self.now a }
        ensures none { IfNone result ((l r : Term) → concl_of self.now a ≡ implication l r → ⊥) }
        ensures left { IfSome result (λ p. HasTerm self.now.store p.left) }
        ensures right { IfSome result (λ p. HasTerm self.now.store p.right) }
        ensures some { IfSome result (λ p. concl_of self.now a ≡ implication (term_tree self.now.store p.left) (term_tree self.now.store p.right)) }
        ensures lawful { IsKernel self.now }
        ensures apart { TermsApart self.now.store }
    {
        imp_parts(self, self.constants(), self.concl(a))
    }

    /// The sides of a conclusion that is a conjunction.
    pub(crate) fn conjuncts_of(&self, a: ThmId) -> Option<Sides>
        requires { HasThm self.now a }
        ensures none { IfNone result ((l r : Term) → concl_of self.now a ≡ conjunction l r → ⊥) }
        ensures left { IfSome result (λ p. HasTerm self.now.store p.left) }
        ensures right { IfSome result (λ p. HasTerm self.now.store p.right) }
        ensures some { IfSome result (λ p. concl_of self.now a ≡ conjunction (term_tree self.now.store p.left) (term_tree self.now.store p.right)) }
        ensures lawful { IsKernel self.now }
        ensures apart { TermsApart self.now.store }
    {
        and_parts(self, self.constants(), self.concl(a))
    }

    /// The sides of a conclusion that is a disjunction.
    pub(crate) fn disjuncts_of(&self, a: ThmId) -> Option<Sides>
        requires { HasThm self.now a }
        ensures none { IfNone result ((l r : Term) → concl_of self.now a ≡ disjunction l r → ⊥) }
        ensures left { IfSome result (λ p. HasTerm self.now.store p.left) }
        ensures right { IfSome result (λ p. HasTerm self.now.store p.right) }
        ensures some { IfSome result (λ p. concl_of self.now a ≡ disjunction (term_tree self.now.store p.left) (term_tree self.now.store p.right)) }
        ensures lawful { IsKernel self.now }
        ensures apart { TermsApart self.now.store }
    {
        or_parts(self, self.constants(), self.concl(a))
    }

    /// What a conclusion negates.
    pub(crate) fn negated_by(&self, a: ThmId) -> Option<TermId>
        requires { HasThm self.now a }
        ensures none { IfNone result ((t : Term) → concl_of self.now a ≡ negation t → ⊥) }
        ensures there { IfSome result (λ t. HasTerm self.now.store t) }
        ensures some { IfSome result (λ t. concl_of self.now a ≡ negation (term_tree self.now.store t)) }
        ensures lawful { IsKernel self.now }
        ensures apart { TermsApart self.now.store }
    {
        not_part(self, self.constants(), self.concl(a))
    }

    /// Whether a conclusion is `false`.
    pub(crate) fn concludes_false(&self, a: ThmId) -> bool
        requires { HasThm self.now a }
        ensures { IsTrue result ↔ (concl_of self.now a ≡ false_tm) }
    {
        is_false(self, self.constants(), self.concl(a))
    }

    /// Whether both records were derived without facts.
    pub(crate) fn both_bare(&self, a: ThmId, b: ThmId) -> bool
        requires left { HasThm self.now a }
        requires right { HasThm self.now b }
        ensures { result ≡ (bare_of self.now a && bare_of self.now b) }
    {
        self.is_bare(a) && self.is_bare(b)
    }

    /// Whether three records were derived without facts.
    pub(crate) fn all_bare(&self, a: ThmId, b: ThmId, c: ThmId) -> bool
        requires first { HasThm self.now a }
        requires second { HasThm self.now b }
        requires third { HasThm self.now c }
        ensures { result ≡ ((bare_of self.now a && bare_of self.now b) && bare_of self.now c) }
    {
        self.both_bare(a, b) && self.is_bare(c)
    }

    /// The hypotheses of a record.
    pub(crate) fn hyps_copy(&self, a: ThmId) -> Result<List<TermId>, AllocError>
        requires { HasThm self.now a }
        ensures gives { IfOk result (λ c. GivesHyps self.now c (hyps_of self.now a)) }
        ensures lawful { IsKernel self.now }
    {
        let c = copied(self.alloc(), self.hyps(a))?;
        Ok(c)
    }

    /// The hypotheses of two records.
    pub(crate) fn hyps_of_both(&self, a: ThmId, b: ThmId) -> Result<List<TermId>, AllocError>
        requires left { HasThm self.now a }
        requires right { HasThm self.now b }
        ensures gives { IfOk result (λ c. GivesHyps self.now c (hyps_of self.now a ++ hyps_of self.now b)) }
        ensures lawful { IsKernel self.now }
    {
        let c = union(self.alloc(), self.hyps(a), self.hyps(b))?;
        Ok(c)
    }

    /// The hypotheses of a record but one.
    pub(crate) fn hyps_without(&self, a: ThmId, t: TermId) -> Result<List<TermId>, AllocError>
        requires thm { HasThm self.now a }
        requires there { HasTerm self.now.store t }
        ensures gives { IfOk result (λ c. GivesHyps self.now c (without (term_tree self.now.store t) (hyps_of self.now a))) }
        ensures lawful { IsKernel self.now }
    {
        self.know_apart();
        let c = without(self.alloc(), self.hyps(a), t)?;
        Ok(c)
    }

    /// The ids of two lists of hypotheses.
    pub(crate) fn hyps_union(&self, x: &[TermId], y: &[TermId]) -> Result<List<TermId>, AllocError>
        requires left { AreHyps self.now.store self.now.context x.now }
        requires right { AreHyps self.now.store self.now.context y.now }
        ensures gives { IfOk result (λ c. GivesHyps self.now c (trees self.now.store x.now ++ trees self.now.store y.now)) }
        ensures lawful { IsKernel self.now }
    {
        self.know_apart();
        let c = union(self.alloc(), x, y)?;
        Ok(c)
    }

    /// The hypotheses of a record and one formula more, unless it stands in the context.
    pub(crate) fn hyps_with(&self, a: ThmId, t: TermId) -> Result<List<TermId>, AllocError>
        requires thm { HasThm self.now a }
        requires formula { HasFormula self.now.store t }
        ensures gives { IfOk result (λ c. GivesHyps self.now c (trees self.now.store c)) }
        ensures outside { IfOk result (λ c. IsOutside (context_of self.now) (term_tree self.now.store t ∷ hyps_of self.now a) (trees self.now.store c)) }
        ensures lawful { IsKernel self.now }
    {
        self.know_apart();
        let new = self.outside_context(&[t])?;
        let c = self.hyps_union(new.as_slice(), self.hyps(a))?;
        Ok(c)
    }

    /// The hypotheses of two records, each but one.
    pub(crate) fn hyps_without_each(
        &self,
        a: ThmId,
        t: TermId,
        b: ThmId,
        u: TermId,
    ) -> Result<List<TermId>, AllocError>
        requires left { HasThm self.now a }
        requires right { HasThm self.now b }
        requires there { HasTerm self.now.store t }
        requires other { HasTerm self.now.store u }
        ensures gives { IfOk result (λ c. GivesHyps self.now c (without (term_tree self.now.store t) (hyps_of self.now a) ++ without (term_tree self.now.store u) (hyps_of self.now b))) }
        ensures lawful { IsKernel self.now }
    {
        let left = self.hyps_without(a, t)?;
        let right = self.hyps_without(b, u)?;
        let c = self.hyps_union(left.as_slice(), right.as_slice())?;
        Ok(c)
    }

    /// The hypotheses of a record, and those of another but one.
    pub(crate) fn hyps_beside(
        &self,
        a: ThmId,
        b: ThmId,
        t: TermId,
    ) -> Result<List<TermId>, AllocError>
        requires left { HasThm self.now a }
        requires right { HasThm self.now b }
        requires there { HasTerm self.now.store t }
        ensures gives { IfOk result (λ c. GivesHyps self.now c (hyps_of self.now a ++ without (term_tree self.now.store t) (hyps_of self.now b))) }
        ensures lawful { IsKernel self.now }
    {
        let rest = self.hyps_without(b, t)?;
        let c = self.hyps_union(self.hyps(a), rest.as_slice())?;
        Ok(c)
    }

    /// The hypotheses of a record, and those of two cases, each but the formula of its case.
    pub(crate) fn hyps_of_cases(
        &self,
        a: ThmId,
        b: ThmId,
        c: ThmId,
        cases: Sides,
    ) -> Result<List<TermId>, AllocError>
        requires either { HasThm self.now a }
        requires first { HasThm self.now b }
        requires second { HasThm self.now c }
        requires left { HasTerm self.now.store cases.left }
        requires right { HasTerm self.now.store cases.right }
        ensures gives { IfOk result (λ r. GivesHyps self.now r (hyps_of self.now a ++ without (term_tree self.now.store cases.left) (hyps_of self.now b) ++ without (term_tree self.now.store cases.right) (hyps_of self.now c))) }
        ensures lawful { IsKernel self.now }
    {
        let first = self.hyps_beside(a, b, cases.left)?;
        let second = self.hyps_without(c, cases.right)?;
        let r = self.hyps_union(first.as_slice(), second.as_slice())?;
        Ok(r)
    }

    /// The implication of two formulas.
    pub(crate) fn implication(&mut self, a: TermId, b: TermId) -> Result<TermId, AllocError>
        requires left { HasFormula self.old.store a }
        requires right { HasFormula self.old.store b }
        ensures formula { IfOk result (λ t. HasFormula self.new.store t) }
        ensures tree { IfOk result (λ t. term_tree self.new.store t ≡ implication (term_tree self.old.store a) (term_tree self.old.store b)) }
        ensures keeps { KeepsAll self.old self.new }
    {
        let constants = self.constants();
        let t = make_imp(self, constants, a, b)?;
        Ok(t)
    }

    /// The conjunction of two formulas.
    pub(crate) fn conjunction(&mut self, a: TermId, b: TermId) -> Result<TermId, AllocError>
        requires left { HasFormula self.old.store a }
        requires right { HasFormula self.old.store b }
        ensures there { IfOk result (λ t. HasTerm self.new.store t) }
        ensures tree { IfOk result (λ t. term_tree self.new.store t ≡ conjunction (term_tree self.old.store a) (term_tree self.old.store b)) }
        ensures keeps { KeepsAll self.old self.new }
    {
        let constants = self.constants();
        let t = make_and(self, constants, a, b)?;
        Ok(t)
    }

    /// The disjunction of two formulas.
    pub(crate) fn disjunction(&mut self, a: TermId, b: TermId) -> Result<TermId, AllocError>
        requires left { HasFormula self.old.store a }
        requires right { HasFormula self.old.store b }
        ensures there { IfOk result (λ t. HasTerm self.new.store t) }
        ensures tree { IfOk result (λ t. term_tree self.new.store t ≡ disjunction (term_tree self.old.store a) (term_tree self.old.store b)) }
        ensures keeps { KeepsAll self.old self.new }
    {
        let constants = self.constants();
        let t = make_or(self, constants, a, b)?;
        Ok(t)
    }

    /// The negation of a formula.
    pub(crate) fn negation(&mut self, a: TermId) -> Result<TermId, AllocError>
        requires { HasFormula self.old.store a }
        ensures formula { IfOk result (λ t. HasFormula self.new.store t) }
        ensures tree { IfOk result (λ t. term_tree self.new.store t ≡ negation (term_tree self.old.store a)) }
        ensures keeps { KeepsAll self.old self.new }
    {
        let constants = self.constants();
        let t = make_not(self, constants, a)?;
        Ok(t)
    }
}
