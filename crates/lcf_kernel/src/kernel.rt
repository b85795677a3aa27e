//! The kernel: each record follows from the facts under the context and its hypotheses.
ghost use Rattle.std.specs.Prelude.{◌≡◌, ◌++◌, [], ◌∷◌, length, IfOk, OnOk, OnErr, IsTrue, true, false};
ghost use Rattle.hol_types.specs.TypeSubst.{HasSubst, subst_tree};
ghost use Rattle.hol_terms.specs.TermStore.{HasTerm, Keeps, TermsApart, term_tree};
ghost use Rattle.hol_terms.specs.Formula.{IsFormula, NotFreeInAny, ChangesNone, without};
ghost use Rattle.hol_terms.specs.Derivable.{Derivable};
ghost use Rattle.hol_formulas.specs.Constants.{AreConstants};
ghost use Rattle.hol_formulas.specs.Found.{AreVariables};
ghost use Rattle.hol_formulas.specs.FoundTypes.{type_variables_in, AreTypeVariables};
ghost use Rattle.hol_formulas.specs.Formulas.{trees, HasFormula, HasFormulas, IsContext};
ghost use Rattle.lcf_kernel.specs.KernelState.{KernelState, HasThm, thm_at, concl_of, hyps_of, bare_of, facts_of, context_of, all_hyps_of, adopted_of, opened_of, with_thm, AreHyps, IsThm, IsKernel, KeepsRecords, KeepsAll, IsOutside, GivesHyps};
ghost use Rattle.lcf_kernel.specs.Hyps.{Rises, SameIds};
ghost use Rattle.lcf_kernel.specs.Marks.{MayReset, cut, mark_of};

use crate::hyps::{copied, in_order, outside};
use crate::known::{
    Known, changes_none, occurs, occurs_but, type_variables_in_list, variables_in_order,
};
use crate::mark::KernelMark;
use crate::thm::{Made, Thm, ThmId};
use hol_formulas::formula::Constants;
use hol_terms::{Frozen, Mark, Node, Part, Store, TermFault, TermId, Terms};
use hol_types::{List, NameId, Subst, TypeFault, TypeId, TypeInstances, TypeNode};
use std::alloc::{AllocError, Global};
use std::collections::HashMap;
use std::marker::Model;

/// Records of theorems over a store of terms. Each record's conclusion is derivable from the facts, with the context
/// and the record's hypotheses as hypotheses.
pub struct Kernel<'b> {
    store: Store<'b>,
    constants: Constants,
    facts: List<TermId>,
    context: List<TermId>,
    /// The context's ids in rising order, each once.
    ordered: List<TermId>,
    /// The ids of the context's free variables in rising order, each once.
    variables: List<TermId>,
    /// The ids of the types that are the context's type variables.
    type_variables: List<TypeId>,
    /// The variables of formulas that were asked for them.
    known: Known,
    thms: Vec<Thm>,
    alloc: Global,
}

impl Drop for Kernel<'_> {
    fn drop(self) {
        let Kernel {
            store: _,
            constants: _,
            facts: _,
            context: _,
            ordered: _,
            variables: _,
            type_variables: _,
            known: _,
            thms: _,
            alloc: _,
        } = self;
    }
}

/// What a kernel holds beside its terms.
#[derive(Debug)]
pub struct Records {
    /// How much of the terms is the base's.
    pub base: Mark,
    /// The numbers of HOL's constants.
    pub constants: Constants,
    /// The facts.
    pub facts: List<TermId>,
    /// The formulas that are hypotheses of each record.
    pub context: List<TermId>,
    /// The free variables of the context.
    pub variables: List<TermId>,
    /// The type variables of the context.
    pub type_variables: List<TypeId>,
    /// The records, in the order in which they were made.
    pub thms: List<Thm>,
}

impl Drop for Records {
    fn drop(self) {
        let Records {
            base: _,
            constants: _,
            facts: _,
            context: _,
            variables: _,
            type_variables: _,
            thms: _,
        } = self;
    }
}

impl<'b> Model for Kernel<'b> {
    ghost use Rattle.lcf_kernel.specs.KernelState.{KernelState, IsInside};

    ghost Value = { KernelState };

    ghost view = { λ k. record { store = k.store.store; base = k.store.base; constants = k.constants; facts = k.facts; context = k.context; variables = k.variables; type_variables = k.type_variables; thms = k.thms.items } };

    ghost invariant = { λ k. IsInside (record { store = k.store.store; base = k.store.base; constants = k.constants; facts = k.facts; context = k.context; variables = k.variables; type_variables = k.type_variables; thms = k.thms.items }) k.constants k.ordered k.known };
}

impl<'b> Kernel<'b> {
    /// A kernel without records, over the terms of a base, whose ids stand for the same here. The facts and the
    /// context are formulas of the base, and the context's have no Open variable.
    pub fn new(
        alloc: Global,
        base: &'b Frozen,
        facts: &[TermId],
        context: &[TermId],
    ) -> Result<Kernel<'b>, AllocError>
        requires facts { HasFormulas base.now facts.now }
        requires context { IsContext base.now context.now }
        ensures store { IfOk result (λ k. Keeps base.now k.store) }
        ensures facts { IfOk result (λ k. k.facts ≡ facts.now) }
        ensures context { IfOk result (λ k. k.context ≡ context.now) }
        ensures thms { IfOk result (λ k. k.thms ≡ []) }
    {
        let mut store = Store::over(alloc, base);
        let variables = variables_in_order(&store, context)?;
        let type_variables = type_variables_in_list(&store, context)?;
        let constants = Constants::new(&mut store)?;
        let ordered = in_order(alloc, context)?;
        let facts = copied(alloc, facts)?;
        let context = copied(alloc, context)?;
        let known = HashMap::new(alloc);
        let thms = Vec::new(alloc);
        Ok(Kernel {
            store,
            constants,
            facts,
            context,
            ordered,
            variables,
            type_variables,
            known,
            thms,
            alloc,
        })
    }

    /// How much the kernel holds now: `reset` takes it back to here.
    pub fn mark(&self) -> KernelMark
        ensures mark { result ≡ mark_of self.now }
        ensures whole { cut result self.now ≡ self.now }
        ensures may_reset { MayReset result self.now }
    {
        let store = self.store.mark();
        let thms = self.thms.len();
        KernelMark { store, thms }
    }

    /// Takes away all records, names, declared constructors, types and terms that came after the mark, which is one that
    /// this kernel gave and went on from. The kernel is as it was at the mark. It takes a step for each item that goes,
    /// what is known of formulas among them.
    pub fn reset(&mut self, m: KernelMark)
        requires { MayReset m self.old }
        ensures cut { self.new ≡ cut m self.old }
        ensures back { (was : KernelState) → MayReset m was → cut m was ≡ was → KeepsRecords was self.old → self.new ≡ was }
    {
        self.known = HashMap::new(self.alloc);
        self.store.reset(m.store);
        self.thms.truncate(m.thms);
    }

    /// Records a formula that is derivable from the facts under the context and the hypotheses given. The record's
    /// hypotheses are those given that aren't in the context.
    pub fn adopt(&mut self, hyps: &[TermId], concl: TermId) -> Result<ThmId, AllocError>
        requires hyps { HasFormulas self.old.store hyps.now }
        requires concl { HasFormula self.old.store concl }
        requires derivable { Derivable (facts_of self.old) (context_of self.old ++ trees self.old.store hyps.now) (term_tree self.old.store concl) }
        ensures there { IfOk result (λ r. HasThm self.new r) }
        ensures concl { IfOk result (λ r. concl_of self.new r ≡ term_tree self.old.store concl) }
        ensures hyps { IfOk result (λ r. IsOutside (context_of self.old) (trees self.old.store hyps.now) (hyps_of self.new r)) }
        ensures bare { IfOk result (λ r. bare_of self.new r ≡ false) }
        ensures adopted { IfOk result (λ r. adopted_of self.new.thms ≡ adopted_of self.old.thms ++ thm_at self.new r ∷ []) }
        ensures opened { opened_of self.new.thms ≡ opened_of self.old.thms }
        ensures records { KeepsRecords self.old self.new }
        ensures err { OnErr result (self.new ≡ self.old) }
    {
        let hyps = self.outside_context(hyps)?;
        let r = self.add(Thm {
            hyps,
            concl,
            made: Made::Adopted,
            bare: false,
        })?;
        Ok(r)
    }

    /// The conclusion of a record.
    pub fn concl(&self, t: ThmId) -> TermId
        requires { HasThm self.now t }
        ensures is { result ≡ (thm_at self.now t).concl }
        ensures there { HasTerm self.now.store result }
        ensures tree { term_tree self.now.store result ≡ concl_of self.now t }
        ensures formula { IsFormula (concl_of self.now t) }
        ensures derivable { Derivable (facts_of self.now) (all_hyps_of self.now t) (concl_of self.now t) }
        ensures bare { IsTrue (bare_of self.now t) → Derivable [] (all_hyps_of self.now t) (concl_of self.now t) }
        ensures lawful { IsKernel self.now }
        ensures apart { TermsApart self.now.store }
    {
        self.know_apart();
        self.record(t).concl
    }

    /// The hypotheses of a record outside the context, in rising order and each once.
    pub fn hyps(&self, t: ThmId) -> &[TermId]
        requires { HasThm self.now t }
        ensures is { result.now ≡ (thm_at self.now t).hyps }
        ensures trees { trees self.now.store result.now ≡ hyps_of self.now t }
        ensures are { AreHyps self.now.store self.now.context result.now }
        ensures derivable { Derivable (facts_of self.now) (all_hyps_of self.now t) (concl_of self.now t) }
        ensures bare { IsTrue (bare_of self.now t) → Derivable [] (all_hyps_of self.now t) (concl_of self.now t) }
        ensures lawful { IsKernel self.now }
    {
        self.record(t).hyps.as_slice()
    }

    /// Whether a record was derived without facts.
    pub fn is_bare(&self, t: ThmId) -> bool
        requires { HasThm self.now t }
        ensures { result ≡ bare_of self.now t }
    {
        self.record(t).bare
    }

    /// The facts.
    pub fn facts(&self) -> &[TermId]
        ensures is { result.now ≡ self.now.facts }
        ensures formulas { HasFormulas self.now.store result.now }
    {
        self.facts.as_slice()
    }

    pub(crate) fn context(&self) -> &[TermId]
        ensures is { result.now ≡ self.now.context }
        ensures are { IsContext self.now.store result.now }
        ensures lawful { IsKernel self.now }
    {
        self.context.as_slice()
    }

    fn record(&self, t: ThmId) -> &Thm
        requires { HasThm self.now t }
        ensures is { result.now ≡ thm_at self.now t }
        ensures lawful { IsKernel self.now }
    {
        &self.thms[t.index()]
    }

    pub(crate) fn store(&self) -> &Store<'b>
        ensures { result.now.store ≡ self.now.store }
    {
        &self.store
    }

    pub(crate) fn alloc(&self) -> Global {
        self.alloc
    }

    /// The numbers of HOL's constants here.
    pub fn constants(&self) -> Constants
        ensures is { result ≡ self.now.constants }
        ensures are { AreConstants self.now.store result }
        ensures lawful { IsKernel self.now }
    {
        self.constants
    }

    /// Does nothing: a call of the store says that terms with equal trees have one id.
    pub(crate) fn know_apart(&self)
        ensures apart { TermsApart self.now.store }
        ensures lawful { IsKernel self.now }
    {
        let _node = self.store().node(self.constants().falsity);
    }

    /// The ids of a list that aren't in the context.
    pub(crate) fn outside_context(&self, given: &[TermId]) -> Result<List<TermId>, AllocError>
        requires { HasFormulas self.now.store given.now }
        ensures lawful { IsKernel self.now }
        ensures gives { IfOk result (λ c. GivesHyps self.now c (trees self.now.store c)) }
        ensures outside { IfOk result (λ c. IsOutside (context_of self.now) (trees self.now.store given.now) (trees self.now.store c)) }
    {
        self.know_apart();
        let inside = in_order(self.alloc(), given)?;
        let c = outside(self.alloc(), inside.as_slice(), self.ordered())?;
        Ok(c)
    }

    fn ordered(&self) -> &[TermId]
        ensures rises { Rises result.now }
        ensures same { SameIds result.now self.now.context }
        ensures lawful { IsKernel self.now }
    {
        self.ordered.as_slice()
    }

    /// The free variables of the context in rising order, each once.
    pub(crate) fn variables(&self) -> &[TermId]
        ensures rises { Rises result.now }
        ensures are { AreVariables self.now.store result.now (context_of self.now) }
        ensures lawful { IsKernel self.now }
    {
        self.variables.as_slice()
    }

    /// The type variables of the context.
    pub(crate) fn type_variables(&self) -> &[TypeId]
        ensures are { AreTypeVariables self.now.store.types result.now (type_variables_in (context_of self.now)) }
        ensures lawful { IsKernel self.now }
    {
        self.type_variables.as_slice()
    }

    /// Whether a free variable occurs in a record's own hypotheses. Only a formula that isn't known yet is walked.
    pub(crate) fn in_own(&mut self, a: ThmId, v: TermId) -> Result<bool, AllocError>
        requires thm { HasThm self.old a }
        requires variable { HasTerm self.old.store v }
        ensures absent { IfOk result (λ r. r ≡ false → NotFreeInAny (term_tree self.old.store v) (hyps_of self.old a)) }
        ensures present { IfOk result (λ r. r ≡ true → NotFreeInAny (term_tree self.old.store v) (hyps_of self.old a) → ⊥) }
        ensures same { self.new ≡ self.old }
    {
        let own = self.thms[a.index()].hyps.as_slice();
        let r = occurs(&self.store, &mut self.known, v, own)?;
        Ok(r)
    }

    /// The same, for the hypotheses other than a given term.
    pub(crate) fn in_own_but(
        &mut self,
        a: ThmId,
        v: TermId,
        but: TermId,
    ) -> Result<bool, AllocError>
        requires thm { HasThm self.old a }
        requires variable { HasTerm self.old.store v }
        requires but { HasTerm self.old.store but }
        ensures absent { IfOk result (λ r. r ≡ false → NotFreeInAny (term_tree self.old.store v) (without (term_tree self.old.store but) (hyps_of self.old a))) }
        ensures present { IfOk result (λ r. r ≡ true → NotFreeInAny (term_tree self.old.store v) (without (term_tree self.old.store but) (hyps_of self.old a)) → ⊥) }
        ensures same { self.new ≡ self.old }
    {
        let own = self.thms[a.index()].hyps.as_slice();
        let r = occurs_but(&self.store, &mut self.known, v, own, but)?;
        Ok(r)
    }

    /// The same, for the formulas of the context other than a given term.
    pub(crate) fn in_others(&mut self, v: TermId, but: TermId) -> Result<bool, AllocError>
        requires variable { HasTerm self.old.store v }
        requires but { HasTerm self.old.store but }
        ensures absent { IfOk result (λ r. r ≡ false → NotFreeInAny (term_tree self.old.store v) (without (term_tree self.old.store but) (context_of self.old))) }
        ensures present { IfOk result (λ r. r ≡ true → NotFreeInAny (term_tree self.old.store v) (without (term_tree self.old.store but) (context_of self.old)) → ⊥) }
        ensures same { self.new ≡ self.old }
    {
        let r = occurs_but(
            &self.store,
            &mut self.known,
            v,
            self.context.as_slice(),
            but,
        )?;
        Ok(r)
    }

    /// Whether types for type variables change no type variable of a record's own hypotheses. Only a formula that isn't
    /// known yet is walked.
    pub(crate) fn keeps_own(&mut self, a: ThmId, s: &Subst) -> Result<bool, AllocError>
        requires thm { HasThm self.old a }
        requires subst { HasSubst self.old.store.types s.now }
        ensures is { IfOk result (λ r. r ≡ true → ChangesNone (subst_tree self.old.store.types s.now) (hyps_of self.old a)) }
        ensures isnt { IfOk result (λ r. r ≡ false → ChangesNone (subst_tree self.old.store.types s.now) (hyps_of self.old a) → ⊥) }
        ensures keeps { KeepsAll self.old self.new }
    {
        let own = self.thms[a.index()].hyps.as_slice();
        let r = changes_none(&mut self.store, &mut self.known, own, s)?;
        Ok(r)
    }

    /// Makes each record of a kernel.
    fn add(&mut self, thm: Thm) -> Result<ThmId, AllocError>
        requires { IsThm self.old.store self.old.facts self.old.context thm }
        ensures at { IfOk result (λ t. t ≡ length self.old.thms) }
        ensures ok { OnOk result (self.new ≡ with_thm self.old thm) }
        ensures err { OnErr result (self.new ≡ self.old) }
    {
        let at = self.thms.len();
        self.thms.push(thm)?;
        Ok(ThmId::new(at))
    }

    /// Adds the record of a rule.
    pub(crate) fn conclude(
        &mut self,
        hyps: List<TermId>,
        concl: TermId,
        bare: bool,
    ) -> Result<ThmId, AllocError>
        requires { IsThm self.old.store self.old.facts self.old.context (record { hyps = hyps; concl = concl; made = Made.Rule; bare = bare }) }
        ensures there { IfOk result (λ r. HasThm self.new r) }
        ensures concl { IfOk result (λ r. concl_of self.new r ≡ term_tree self.old.store concl) }
        ensures hyps { IfOk result (λ r. hyps_of self.new r ≡ trees self.old.store hyps) }
        ensures bare { IfOk result (λ r. bare_of self.new r ≡ bare) }
        ensures keeps { KeepsAll self.old self.new }
    {
        let r = self.add(Thm {
            hyps,
            concl,
            made: Made::Rule,
            bare,
        })?;
        Ok(r)
    }
}

impl<'b> Terms for Kernel<'b> {
    ghost use Rattle.lcf_kernel.specs.KernelState.{records_of};

    type Rest = Records;

    ghost store = { λ k. k.store };

    ghost rest = { λ k. records_of k };

    fn allocator(&self) -> Global {
        self.alloc()
    }

    fn name(&mut self, text: &[u8]) -> Result<NameId, AllocError> {
        let made = self.store.name(text);
        made
    }

    fn text(&self, n: NameId) -> &[u8] {
        self.store().text(n)
    }

    fn declare(&mut self, n: NameId, arity: u32) -> Result<bool, AllocError> {
        let made = self.store.declare(n, arity);
        made
    }

    fn intern_type(&mut self, node: TypeNode) -> Result<TypeId, TypeFault> {
        let made = self.store.intern_type(node);
        made
    }

    fn type_node(&self, t: TypeId) -> &TypeNode {
        self.store().type_node(t)
    }

    fn instance_part(
        &mut self,
        memo: &mut TypeInstances,
        t: TypeId,
        s: &Subst,
    ) -> Result<TypeId, AllocError> {
        let made = self.store.instance_part(memo, t, s);
        made
    }

    fn match_type(
        &self,
        pattern: TypeId,
        t: TypeId,
        s: &Subst,
    ) -> Result<Option<Subst>, AllocError> {
        self.store().match_type(pattern, t, s)
    }

    fn intern(&mut self, node: Node) -> Result<TermId, TermFault> {
        let made = self.store.intern(node);
        made
    }

    fn make(&mut self, node: Node) -> Result<TermId, AllocError> {
        let made = self.store.make(node);
        made
    }

    fn node(&self, t: TermId) -> Node {
        self.store().node(t)
    }

    fn ty(&self, t: TermId) -> TypeId {
        self.store().ty(t)
    }

    fn reach(&self, t: TermId) -> u32 {
        self.store().reach(t)
    }

    fn deep_parts(&self, t: TermId) -> Result<Vec<TermId>, AllocError> {
        self.store().deep_parts(t)
    }

    fn deep_places(&self, t: TermId, loose: bool) -> Result<Vec<Part>, AllocError> {
        self.store().deep_places(t, loose)
    }

    fn deep_type_parts(&self, t: TypeId) -> Result<Vec<TypeId>, AllocError> {
        self.store().deep_type_parts(t)
    }
}
