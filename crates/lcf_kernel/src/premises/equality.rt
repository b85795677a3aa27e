//! What rules of equality ask and make.
ghost use Rattle.std.specs.Prelude.{◌≡◌, ◌↔◌, IsTrue, IfOk, IfSome, IfNone};
ghost use Rattle.hol_types.specs.Ty.{Ty, BoolTy};
ghost use Rattle.hol_types.specs.TypeStore.{type_tree};
ghost use Rattle.hol_terms.specs.Term.{Term, AppTm, LamTm, BoundsFit, ty_of};
ghost use Rattle.hol_terms.specs.Substitution.{IsClosed, subst_bound};
ghost use Rattle.hol_terms.specs.TermStore.{HasTerm, TermsApart, term_tree};
ghost use Rattle.hol_terms.specs.Formula.{IsTerm};
ghost use Rattle.hol_terms.specs.Constants.{equation, conditional};
ghost use Rattle.lcf_kernel.specs.KernelState.{HasThm, concl_of, IsKernel, KeepsAll};

use crate::kernel::Kernel;
use crate::thm::ThmId;
use hol_formulas::binder::{Binder, lambda_parts};
use hol_formulas::equation::{eq_parts, make_eq, make_ite, same_type};
use hol_formulas::formula::Sides;
use hol_terms::{Node, TermId, Terms};
use std::alloc::AllocError;

/// A lambda applied to a term.
#[derive(Clone, Copy, Debug)]
pub(crate) struct Redex {
    pub(crate) lambda: Binder,
    pub(crate) argument: TermId,
}

impl<'b> Kernel<'b> {
    /// Does nothing: a call of the store says that the term is typed.
    pub(crate) fn know_term(&self, t: TermId)
        requires there { HasTerm self.now.store t }
        requires closed { IsClosed (term_tree self.now.store t) }
        ensures term { IsTerm (term_tree self.now.store t) }
        ensures lawful { IsKernel self.now }
    {
        self.know_apart();
        let _ty = self.store().ty(t);
    }

    /// Whether two terms may be the branches of a conditional: they have one type.
    pub(crate) fn are_branches(&self, t: TermId, u: TermId) -> bool
        requires first { HasTerm self.now.store t }
        requires second { HasTerm self.now.store u }
        requires first_closed { IsClosed (term_tree self.now.store t) }
        requires second_closed { IsClosed (term_tree self.now.store u) }
        ensures is { IsTrue result ↔ (ty_of (term_tree self.now.store u) ≡ ty_of (term_tree self.now.store t)) }
        ensures first_term { IsTerm (term_tree self.now.store t) }
        ensures second_term { IsTerm (term_tree self.now.store u) }
    {
        self.know_term(t);
        self.know_term(u);
        same_type(self, t, u)
    }

    /// The sides of a conclusion that is an equation.
    pub(crate) fn equated_by(&self, a: ThmId) -> Option<Sides>
        requires { HasThm self.now a }
        ensures none { IfNone result ((ty : Ty) (l r : Term) → concl_of self.now a ≡ equation ty l r → ⊥) }
        ensures left { IfSome result (λ p. HasTerm self.now.store p.left) }
        ensures right { IfSome result (λ p. HasTerm self.now.store p.right) }
        ensures some { IfSome result (λ p. concl_of self.now a ≡ equation (ty_of (term_tree self.now.store p.left)) (term_tree self.now.store p.left) (term_tree self.now.store p.right)) }
        ensures lawful { IsKernel self.now }
        ensures apart { TermsApart self.now.store }
    {
        eq_parts(self, self.constants(), self.concl(a))
    }

    /// The body of a lambda on the type of a term.
    pub(crate) fn body_for(&self, p: TermId, t: TermId) -> Option<TermId>
        requires lambda { HasTerm self.now.store p }
        requires there { HasTerm self.now.store t }
        requires closed { IsClosed (term_tree self.now.store p) }
        ensures none { IfNone result ((b : Term) → term_tree self.now.store p ≡ LamTm (ty_of (term_tree self.now.store t)) b → ⊥) }
        ensures there { IfSome result (λ b. HasTerm self.now.store b) }
        ensures some { IfSome result (λ b. term_tree self.now.store p ≡ LamTm (ty_of (term_tree self.now.store t)) (term_tree self.now.store b)) }
        ensures term { IsTerm (term_tree self.now.store p) }
    {
        self.know_term(p);
        let Some(lambda) = lambda_parts(self, p) else {
            return None;
        };
        if lambda.ty == self.ty(t) {
            Some(lambda.body)
        } else {
            None
        }
    }

    /// The parts of a lambda applied to a term.
    pub(crate) fn redex_at(&self, t: TermId) -> Option<Redex>
        requires there { HasTerm self.now.store t }
        requires closed { IsClosed (term_tree self.now.store t) }
        ensures none { IfNone result ((ty : Ty) (b u : Term) → term_tree self.now.store t ≡ AppTm (LamTm ty b) u → ⊥) }
        ensures body { IfSome result (λ x. HasTerm self.now.store x.lambda.body) }
        ensures argument { IfSome result (λ x. HasTerm self.now.store x.argument) }
        ensures some { IfSome result (λ x. term_tree self.now.store t ≡ AppTm (LamTm (type_tree self.now.store.types x.lambda.ty) (term_tree self.now.store x.lambda.body)) (term_tree self.now.store x.argument)) }
        ensures term { IsTerm (term_tree self.now.store t) }
    {
        self.know_term(t);
        let Node::App(f, argument) = self.node(t) else {
            return None;
        };
        let Some(lambda) = lambda_parts(self, f) else {
            return None;
        };
        Some(Redex { lambda, argument })
    }

    /// The equation of two terms of one type.
    pub(crate) fn equation(&mut self, a: TermId, b: TermId) -> Result<TermId, AllocError>
        requires left { HasTerm self.old.store a }
        requires right { HasTerm self.old.store b }
        requires same { ty_of (term_tree self.old.store b) ≡ ty_of (term_tree self.old.store a) }
        ensures there { IfOk result (λ t. HasTerm self.new.store t) }
        ensures tree { IfOk result (λ t. term_tree self.new.store t ≡ equation (ty_of (term_tree self.old.store a)) (term_tree self.old.store a) (term_tree self.old.store b)) }
        ensures keeps { KeepsAll self.old self.new }
    {
        let constants = self.constants();
        let t = make_eq(self, constants, a, b)?;
        Ok(t)
    }

    /// The conditional of a condition and two branches.
    fn conditional(&mut self, c: TermId, t: TermId, u: TermId) -> Result<TermId, AllocError>
        requires condition { HasTerm self.old.store c }
        requires first { HasTerm self.old.store t }
        requires second { HasTerm self.old.store u }
        requires bool { ty_of (term_tree self.old.store c) ≡ BoolTy }
        requires same { ty_of (term_tree self.old.store u) ≡ ty_of (term_tree self.old.store t) }
        ensures there { IfOk result (λ r. HasTerm self.new.store r) }
        ensures tree { IfOk result (λ r. term_tree self.new.store r ≡ conditional (ty_of (term_tree self.old.store t)) (term_tree self.old.store c) (term_tree self.old.store t) (term_tree self.old.store u)) }
        ensures keeps { KeepsAll self.old self.new }
    {
        let constants = self.constants();
        let r = make_ite(self, constants, c, t, u)?;
        Ok(r)
    }

    /// That a conditional is one of its branches.
    pub(crate) fn selects(
        &mut self,
        c: TermId,
        t: TermId,
        u: TermId,
        selected: TermId,
    ) -> Result<TermId, AllocError>
        requires condition { HasTerm self.old.store c }
        requires first { HasTerm self.old.store t }
        requires second { HasTerm self.old.store u }
        requires selected { HasTerm self.old.store selected }
        requires bool { ty_of (term_tree self.old.store c) ≡ BoolTy }
        requires same { ty_of (term_tree self.old.store u) ≡ ty_of (term_tree self.old.store t) }
        requires same_selected { ty_of (term_tree self.old.store selected) ≡ ty_of (term_tree self.old.store t) }
        ensures there { IfOk result (λ r. HasTerm self.new.store r) }
        ensures tree { IfOk result (λ r. term_tree self.new.store r ≡ equation (ty_of (term_tree self.old.store t)) (conditional (ty_of (term_tree self.old.store t)) (term_tree self.old.store c) (term_tree self.old.store t) (term_tree self.old.store u)) (term_tree self.old.store selected)) }
        ensures keeps { KeepsAll self.old self.new }
    {
        let whole = self.conditional(c, t, u)?;
        let r = self.equation(whole, selected)?;
        Ok(r)
    }

    /// The body of a lambda with a closed term for its variable.
    pub(crate) fn opened(&mut self, body: TermId, t: TermId) -> Result<TermId, AllocError>
        requires body { HasTerm self.old.store body }
        requires there { HasTerm self.old.store t }
        requires closed { IsClosed (term_tree self.old.store t) }
        requires fits { BoundsFit (term_tree self.old.store body) 0 (ty_of (term_tree self.old.store t)) }
        ensures there { IfOk result (λ r. HasTerm self.new.store r) }
        ensures tree { IfOk result (λ r. term_tree self.new.store r ≡ subst_bound (term_tree self.old.store body) 0 (term_tree self.old.store t)) }
        ensures keeps { KeepsAll self.old self.new }
    {
        self.know_apart();
        let r = self.open(body, t)?;
        Ok(r)
    }

    /// The body of a lambda with each of two closed terms of one type for its variable.
    pub(crate) fn opened_with(&mut self, body: TermId, by: Sides) -> Result<Sides, AllocError>
        requires body { HasTerm self.old.store body }
        requires left { HasTerm self.old.store by.left }
        requires right { HasTerm self.old.store by.right }
        requires left_closed { IsClosed (term_tree self.old.store by.left) }
        requires right_closed { IsClosed (term_tree self.old.store by.right) }
        requires left_fits { BoundsFit (term_tree self.old.store body) 0 (ty_of (term_tree self.old.store by.left)) }
        requires right_fits { BoundsFit (term_tree self.old.store body) 0 (ty_of (term_tree self.old.store by.right)) }
        ensures left_there { IfOk result (λ r. HasTerm self.new.store r.left) }
        ensures right_there { IfOk result (λ r. HasTerm self.new.store r.right) }
        ensures left { IfOk result (λ r. term_tree self.new.store r.left ≡ subst_bound (term_tree self.old.store body) 0 (term_tree self.old.store by.left)) }
        ensures right { IfOk result (λ r. term_tree self.new.store r.right ≡ subst_bound (term_tree self.old.store body) 0 (term_tree self.old.store by.right)) }
        ensures keeps { KeepsAll self.old self.new }
    {
        let left = self.opened(body, by.left)?;
        let right = self.opened(body, by.right)?;
        Ok(Sides { left, right })
    }

    /// The equation of a lambda applied to a term with its body with the term.
    pub(crate) fn reduction(&mut self, t: TermId, redex: Redex) -> Result<TermId, AllocError>
        requires there { HasTerm self.old.store t }
        requires body { HasTerm self.old.store redex.lambda.body }
        requires argument { HasTerm self.old.store redex.argument }
        requires term { IsTerm (term_tree self.old.store t) }
        requires is { term_tree self.old.store t ≡ AppTm (LamTm (type_tree self.old.store.types redex.lambda.ty) (term_tree self.old.store redex.lambda.body)) (term_tree self.old.store redex.argument) }
        ensures there { IfOk result (λ r. HasTerm self.new.store r) }
        ensures tree { IfOk result (λ r. term_tree self.new.store r ≡ equation (ty_of (term_tree self.old.store redex.lambda.body)) (term_tree self.old.store t) (subst_bound (term_tree self.old.store redex.lambda.body) 0 (term_tree self.old.store redex.argument))) }
        ensures keeps { KeepsAll self.old self.new }
    {
        let opened = self.opened(redex.lambda.body, redex.argument)?;
        let r = self.equation(t, opened)?;
        Ok(r)
    }
}
