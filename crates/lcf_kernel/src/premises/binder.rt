//! What rules of quantifiers ask and make.
ghost use Rattle.std.specs.Prelude.{◌≡◌, true, false, IfOk, IfSome, IfNone};
ghost use Rattle.hol_types.specs.Ty.{Ty, BoolTy, FunTy};
ghost use Rattle.hol_types.specs.TypeStore.{HasType, type_tree};
ghost use Rattle.hol_terms.specs.Term.{Term, AppTm, LamTm, Typed, result_ty, ty_of};
ghost use Rattle.hol_terms.specs.Substitution.{IsClosed, IsFreeVariable, subst_bound};
ghost use Rattle.hol_terms.specs.TermStore.{HasTerm, term_tree};
ghost use Rattle.hol_terms.specs.Formula.{IsFormula, NotFreeIn, NotFreeInAny, without};
ghost use Rattle.hol_terms.specs.Constants.{for_all, exists, chosen};
ghost use Rattle.hol_terms.specs.Derivable.{applied, abstraction};
ghost use Rattle.lcf_kernel.specs.KernelState.{HasThm, concl_of, context_of, all_hyps_of, IsKernel, KeepsAll};
ghost use Rattle.hol_formulas.specs.Formulas.{HasFormula};
ghost use Rattle.lcf_kernel.specs.RuleForms.{IsGeneral, IsArbitrary, Agree};

use crate::hyps::holds;
use crate::kernel::Kernel;
use crate::thm::ThmId;
use hol_formulas::binder::{
    Binder, all_part, ex_parts, is_variable, lambda_parts, make_chosen, make_general,
};
use hol_formulas::formula::{Sides, apply_fitting};
use hol_terms::{Node, TermId, Terms};
use std::alloc::AllocError;

impl<'b> Kernel<'b> {
    /// The predicate on a term's type that a conclusion says to hold of all.
    pub(crate) fn predicate_for(&self, a: ThmId, t: TermId) -> Option<TermId>
        requires thm { HasThm self.now a }
        requires there { HasTerm self.now.store t }
        ensures none { IfNone result ((p : Term) → concl_of self.now a ≡ for_all (ty_of (term_tree self.now.store t)) p → ⊥) }
        ensures there { IfSome result (λ p. HasTerm self.now.store p) }
        ensures some { IfSome result (λ p. concl_of self.now a ≡ for_all (ty_of (term_tree self.now.store t)) (term_tree self.now.store p)) }
        ensures lawful { IsKernel self.now }
    {
        let concl = self.concl(a);
        all_part(self, self.constants(), concl, self.ty(t))
    }

    /// The body of a lambda on a term's type that a formula says to hold of some.
    pub(crate) fn body_of_some(&self, e: TermId, t: TermId) -> Option<TermId>
        requires there { HasTerm self.now.store e }
        requires closed { IsClosed (term_tree self.now.store e) }
        requires witness { HasTerm self.now.store t }
        ensures none { IfNone result ((b : Term) → term_tree self.now.store e ≡ exists (ty_of (term_tree self.now.store t)) (LamTm (ty_of (term_tree self.now.store t)) b) → ⊥) }
        ensures there { IfSome result (λ b. HasTerm self.now.store b) }
        ensures some { IfSome result (λ b. term_tree self.now.store e ≡ exists (ty_of (term_tree self.now.store t)) (LamTm (ty_of (term_tree self.now.store t)) (term_tree self.now.store b))) }
        ensures formula { IfSome result (λ b. IsFormula (term_tree self.now.store e)) }
    {
        if !self.is_formula(e) {
            return None;
        }
        let Some(lambda) = ex_parts(self, self.constants(), e) else {
            return None;
        };
        if lambda.ty == self.ty(t) {
            Some(lambda.body)
        } else {
            None
        }
    }

    /// The parts of a lambda that a conclusion says to hold of some.
    pub(crate) fn some_of(&self, a: ThmId) -> Option<Binder>
        requires { HasThm self.now a }
        ensures none { IfNone result ((ty : Ty) (b : Term) → concl_of self.now a ≡ exists ty (LamTm ty b) → ⊥) }
        ensures ty { IfSome result (λ p. HasType self.now.store.types p.ty) }
        ensures body { IfSome result (λ p. HasTerm self.now.store p.body) }
        ensures some { IfSome result (λ p. concl_of self.now a ≡ exists (type_tree self.now.store.types p.ty) (LamTm (type_tree self.now.store.types p.ty) (term_tree self.now.store p.body))) }
        ensures lawful { IsKernel self.now }
    {
        let concl = self.concl(a);
        ex_parts(self, self.constants(), concl)
    }

    /// A function applied to a term.
    fn application(&mut self, f: TermId, x: TermId) -> Result<TermId, AllocError>
        requires function { HasTerm self.old.store f }
        requires argument { HasTerm self.old.store x }
        requires fits { ty_of (term_tree self.old.store f) ≡ FunTy (ty_of (term_tree self.old.store x)) (result_ty (ty_of (term_tree self.old.store f))) }
        ensures there { IfOk result (λ r. HasTerm self.new.store r) }
        ensures tree { IfOk result (λ r. term_tree self.new.store r ≡ AppTm (term_tree self.old.store f) (term_tree self.old.store x)) }
        ensures keeps { KeepsAll self.old self.new }
    {
        self.know_apart();
        let r = apply_fitting(self, f, x)?;
        Ok(r)
    }

    /// What a predicate says of a term.
    pub(crate) fn said_of(&mut self, p: TermId, t: TermId) -> Result<TermId, AllocError>
        requires predicate { HasTerm self.old.store p }
        requires there { HasTerm self.old.store t }
        requires closed { IsClosed (term_tree self.old.store t) }
        requires fits { ty_of (term_tree self.old.store p) ≡ FunTy (ty_of (term_tree self.old.store t)) BoolTy }
        ensures there { IfOk result (λ r. HasTerm self.new.store r) }
        ensures tree { IfOk result (λ r. term_tree self.new.store r ≡ applied (term_tree self.old.store p) (term_tree self.old.store t)) }
        ensures keeps { KeepsAll self.old self.new }
    {
        let Some(lambda) = lambda_parts(self, p) else {
            let r = self.application(p, t)?;
            return Ok(r);
        };
        let r = self.opened(lambda.body, t)?;
        Ok(r)
    }

    /// One of which a lambda holds, where there is one.
    fn chosen_of(&mut self, lambda: Binder) -> Result<TermId, AllocError>
        requires ty { HasType self.old.store.types lambda.ty }
        requires body { HasTerm self.old.store lambda.body }
        requires bool { ty_of (term_tree self.old.store lambda.body) ≡ BoolTy }
        requires typed { Typed (LamTm (type_tree self.old.store.types lambda.ty) (term_tree self.old.store lambda.body)) }
        ensures there { IfOk result (λ r. HasTerm self.new.store r) }
        ensures tree { IfOk result (λ r. term_tree self.new.store r ≡ chosen (type_tree self.old.store.types lambda.ty) (LamTm (type_tree self.old.store.types lambda.ty) (term_tree self.old.store lambda.body))) }
        ensures keeps { KeepsAll self.old self.new }
    {
        let constants = self.constants();
        let r = make_chosen(self, constants, lambda)?;
        Ok(r)
    }

    /// The body of a lambda with one of which the lambda holds, where there is one.
    pub(crate) fn chosen_one(&mut self, lambda: Binder) -> Result<TermId, AllocError>
        requires ty { HasType self.old.store.types lambda.ty }
        requires body { HasTerm self.old.store lambda.body }
        requires formula { IsFormula (exists (type_tree self.old.store.types lambda.ty) (LamTm (type_tree self.old.store.types lambda.ty) (term_tree self.old.store lambda.body))) }
        ensures there { IfOk result (λ r. HasTerm self.new.store r) }
        ensures tree { IfOk result (λ r. term_tree self.new.store r ≡ subst_bound (term_tree self.old.store lambda.body) 0 (chosen (type_tree self.old.store.types lambda.ty) (LamTm (type_tree self.old.store.types lambda.ty) (term_tree self.old.store lambda.body)))) }
        ensures keeps { KeepsAll self.old self.new }
    {
        let body = lambda.body;
        let witness = self.chosen_of(lambda)?;
        let r = self.opened(body, witness)?;
        Ok(r)
    }

    /// That a formula holds of each value of a free variable.
    pub(crate) fn generalised(&mut self, v: TermId, a: TermId) -> Result<TermId, AllocError>
        requires variable { HasTerm self.old.store v }
        requires formula { HasFormula self.old.store a }
        ensures there { IfOk result (λ r. HasTerm self.new.store r) }
        ensures tree { IfOk result (λ r. term_tree self.new.store r ≡ for_all (ty_of (term_tree self.old.store v)) (abstraction (term_tree self.old.store v) (term_tree self.old.store a))) }
        ensures keeps { KeepsAll self.old self.new }
    {
        let constants = self.constants();
        let r = make_general(self, constants, v, a)?;
        Ok(r)
    }

    /// Whether a free variable occurs in the context. It looks at as many ids as the number of the context's free variables
    /// has binary digits.
    pub(crate) fn in_context(&self, v: TermId) -> bool
        requires { HasTerm self.now.store v }
        ensures absent { result ≡ false → NotFreeInAny (term_tree self.now.store v) (context_of self.now) }
        ensures present { result ≡ true → NotFreeInAny (term_tree self.now.store v) (context_of self.now) → ⊥ }
    {
        self.know_apart();
        holds(self.variables(), v)
    }

    /// Whether a term is a free variable that no hypothesis of a record speaks of, and nothing in the context.
    pub(crate) fn is_general(&mut self, a: ThmId, v: TermId) -> Result<bool, AllocError>
        requires thm { HasThm self.old a }
        requires there { HasTerm self.old.store v }
        ensures is { IfOk result (λ r. r ≡ true → IsGeneral (all_hyps_of self.old a) (term_tree self.old.store v)) }
        ensures isnt { IfOk result (λ r. r ≡ false → IsGeneral (all_hyps_of self.old a) (term_tree self.old.store v) → ⊥) }
        ensures same { self.new ≡ self.old }
    {
        if !is_variable(self, v) {
            return Ok(false);
        }
        if self.in_context(v) {
            return Ok(false);
        }
        let in_hyps = self.in_own(a, v)?;
        if in_hyps {
            return Ok(false);
        }
        Ok(true)
    }

    /// The body of a lambda on a free variable's type that a conclusion says to hold of some.
    pub(crate) fn lambda_for(&self, a: ThmId, v: TermId) -> Option<TermId>
        requires thm { HasThm self.now a }
        requires there { HasTerm self.now.store v }
        ensures none { IfNone result ((b : Term) → IsFreeVariable (term_tree self.now.store v) → concl_of self.now a ≡ exists (ty_of (term_tree self.now.store v)) (LamTm (ty_of (term_tree self.now.store v)) b) → ⊥) }
        ensures there { IfSome result (λ b. HasTerm self.now.store b) }
        ensures some { IfSome result (λ b. concl_of self.now a ≡ exists (ty_of (term_tree self.now.store v)) (LamTm (ty_of (term_tree self.now.store v)) (term_tree self.now.store b))) }
        ensures variable { IfSome result (λ b. IsFreeVariable (term_tree self.now.store v)) }
        ensures formula { IfSome result (λ b. IsFormula (concl_of self.now a)) }
    {
        if !is_variable(self, v) {
            return None;
        }
        let said = self.concl(a);
        self.body_of_some(said, v)
    }

    /// Whether a free variable occurs in a formula of the context other than a given one. The formulas are asked one by one
    /// only where it occurs in the context.
    fn in_context_but(&mut self, v: TermId, but: TermId) -> Result<bool, AllocError>
        requires variable { HasTerm self.old.store v }
        requires but { HasTerm self.old.store but }
        ensures absent { IfOk result (λ r. r ≡ false → NotFreeInAny (term_tree self.old.store v) (without (term_tree self.old.store but) (context_of self.old))) }
        ensures present { IfOk result (λ r. r ≡ true → NotFreeInAny (term_tree self.old.store v) (without (term_tree self.old.store but) (context_of self.old)) → ⊥) }
        ensures same { self.new ≡ self.old }
    {
        if !self.in_context(v) {
            return Ok(false);
        }
        let r = self.in_others(v, but)?;
        Ok(r)
    }

    /// Whether a free variable occurs in a hypothesis of a record other than a given formula, or in such a formula of
    /// the context.
    fn in_hyps_but(&mut self, b: ThmId, v: TermId, but: TermId) -> Result<bool, AllocError>
        requires thm { HasThm self.old b }
        requires variable { HasTerm self.old.store v }
        requires but { HasTerm self.old.store but }
        ensures absent { IfOk result (λ r. r ≡ false → NotFreeInAny (term_tree self.old.store v) (without (term_tree self.old.store but) (all_hyps_of self.old b))) }
        ensures present { IfOk result (λ r. r ≡ true → NotFreeInAny (term_tree self.old.store v) (without (term_tree self.old.store but) (all_hyps_of self.old b)) → ⊥) }
        ensures same { self.new ≡ self.old }
    {
        let in_own = self.in_own_but(b, v, but)?;
        if in_own {
            return Ok(true);
        }
        let in_context = self.in_context_but(v, but)?;
        Ok(in_context)
    }

    /// Whether neither a lambda's body speaks of a free variable, nor what a record says, but for the hypothesis that is
    /// the body with the variable.
    pub(crate) fn is_arbitrary(
        &mut self,
        b: ThmId,
        v: TermId,
        body: TermId,
        opened: TermId,
    ) -> Result<bool, AllocError>
        requires thm { HasThm self.old b }
        requires there { HasTerm self.old.store v }
        requires variable { IsFreeVariable (term_tree self.old.store v) }
        requires body { HasTerm self.old.store body }
        requires opened { HasTerm self.old.store opened }
        requires is { term_tree self.old.store opened ≡ subst_bound (term_tree self.old.store body) 0 (term_tree self.old.store v) }
        ensures is { IfOk result (λ r. r ≡ true → IsArbitrary (term_tree self.old.store body) (concl_of self.old b) (all_hyps_of self.old b) (term_tree self.old.store v)) }
        ensures isnt { IfOk result (λ r. r ≡ false → IsArbitrary (term_tree self.old.store body) (concl_of self.old b) (all_hyps_of self.old b) (term_tree self.old.store v) → ⊥) }
        ensures same { self.new ≡ self.old }
    {
        let claim = self.concl(b);
        let absent = self.is_in_neither(v, body, claim)?;
        if !absent {
            return Ok(false);
        }
        let in_others = self.in_hyps_but(b, v, opened)?;
        if in_others {
            return Ok(false);
        }
        Ok(true)
    }

    /// The function that a term applies to another.
    fn function_of(&self, t: TermId, v: TermId) -> Option<TermId>
        requires there { HasTerm self.now.store t }
        requires argument { HasTerm self.now.store v }
        ensures none { IfNone result ((f : Term) → term_tree self.now.store t ≡ AppTm f (term_tree self.now.store v) → ⊥) }
        ensures there { IfSome result (λ f. HasTerm self.now.store f) }
        ensures some { IfSome result (λ f. term_tree self.now.store t ≡ AppTm (term_tree self.now.store f) (term_tree self.now.store v)) }
    {
        let Node::App(f, x) = self.node(t) else {
            return None;
        };
        if x == v { Some(f) } else { None }
    }

    /// The functions that two terms apply to another.
    fn functions_of(&self, sides: Sides, v: TermId) -> Option<Sides>
        requires left { HasTerm self.now.store sides.left }
        requires right { HasTerm self.now.store sides.right }
        requires argument { HasTerm self.now.store v }
        ensures none { IfNone result ((f g : Term) → term_tree self.now.store sides.left ≡ AppTm f (term_tree self.now.store v) → term_tree self.now.store sides.right ≡ AppTm g (term_tree self.now.store v) → ⊥) }
        ensures left { IfSome result (λ p. HasTerm self.now.store p.left) }
        ensures right { IfSome result (λ p. HasTerm self.now.store p.right) }
        ensures some_left { IfSome result (λ p. term_tree self.now.store sides.left ≡ AppTm (term_tree self.now.store p.left) (term_tree self.now.store v)) }
        ensures some_right { IfSome result (λ p. term_tree self.now.store sides.right ≡ AppTm (term_tree self.now.store p.right) (term_tree self.now.store v)) }
    {
        let Some(left) = self.function_of(sides.left, v) else {
            return None;
        };
        let Some(right) = self.function_of(sides.right, v) else {
            return None;
        };
        Some(Sides { left, right })
    }

    /// Whether a variable occurs in neither of two terms.
    fn is_in_neither(&self, v: TermId, f: TermId, g: TermId) -> Result<bool, AllocError>
        requires variable { HasTerm self.now.store v }
        requires left { HasTerm self.now.store f }
        requires right { HasTerm self.now.store g }
        ensures left { IfOk result (λ r. r ≡ true → NotFreeIn (term_tree self.now.store v) (term_tree self.now.store f)) }
        ensures right { IfOk result (λ r. r ≡ true → NotFreeIn (term_tree self.now.store v) (term_tree self.now.store g)) }
        ensures isnt { IfOk result (λ r. r ≡ false → NotFreeIn (term_tree self.now.store v) (term_tree self.now.store f) → NotFreeIn (term_tree self.now.store v) (term_tree self.now.store g) → ⊥) }
    {
        let in_left = self.free_in(v, f)?;
        if in_left {
            return Ok(false);
        }
        let in_right = self.free_in(v, g)?;
        if in_right {
            return Ok(false);
        }
        Ok(true)
    }

    /// The functions that a conclusion says to agree on a free variable of which neither they nor a hypothesis speaks.
    pub(crate) fn agreeing(&mut self, a: ThmId, v: TermId) -> Result<Option<Sides>, AllocError>
        requires thm { HasThm self.old a }
        requires there { HasTerm self.old.store v }
        ensures none { IfOk result (λ found. IfNone found ((f g : Term) → Agree (all_hyps_of self.old a) (concl_of self.old a) (term_tree self.old.store v) f g → ⊥)) }
        ensures left { IfOk result (λ found. IfSome found (λ p. HasTerm self.old.store p.left)) }
        ensures right { IfOk result (λ found. IfSome found (λ p. HasTerm self.old.store p.right)) }
        ensures some { IfOk result (λ found. IfSome found (λ p. Agree (all_hyps_of self.old a) (concl_of self.old a) (term_tree self.old.store v) (term_tree self.old.store p.left) (term_tree self.old.store p.right))) }
        ensures lawful { IsKernel self.old }
        ensures same { self.new ≡ self.old }
    {
        let Some(sides) = self.equated_by(a) else {
            return Ok(None);
        };
        let Some(functions) = self.functions_of(sides, v) else {
            return Ok(None);
        };
        let general = self.is_general(a, v)?;
        if !general {
            return Ok(None);
        }
        let left = functions.left;
        let right = functions.right;
        let absent = self.is_in_neither(v, left, right)?;
        if !absent {
            return Ok(None);
        }
        Ok(Some(Sides { left, right }))
    }
}
