//! Tables of types and of terms. A row names what stands in earlier rows by place.
ghost use Rattle.std.specs.Prelude.{IfOk};
ghost use Rattle.hol_types.specs.TypeStore.{HasType};
ghost use Rattle.hol_terms.specs.TermStore.{HasTerm, Keeps};
ghost use Rattle.kernel_tests.specs.Tables.{AreTypes, AreTerms};

use hol_terms::{FreeKind, Node, TermId, Terms};
use hol_types::{TypeId, TypeNode};
use std::process::Abort;
use std::test::Fail;

/// A type, by the places of its parts.
#[derive(Clone, Copy, Debug)]
pub(crate) enum TypeRow<'a> {
    Bool,
    Var(&'a [u8]),
    Fun(usize, usize),
}

/// A term, by the places of its type and of its parts.
#[derive(Clone, Copy, Debug)]
pub(crate) enum TermRow<'a> {
    Free(FreeKind, &'a [u8], usize),
    Bound(u32, usize),
    Const(&'a [u8], usize),
    App(usize, usize),
    Lam(usize, usize),
}

#[tactic(auto, using(crate::proofs::TestLemmas::type_read))]
fn type_at<S: Terms>(rt: &impl Abort, store: &S, types: &[TypeId], i: usize) -> TypeId
    requires { AreTypes (S.store store.now) types.now }
    ensures { HasType (S.store store.now).types result }
{
    assert!(rt; i < types.len());
    types[i]
}

#[tactic(auto, using(crate::proofs::TestLemmas::term_read))]
pub(crate) fn term_at<S: Terms>(rt: &impl Abort, store: &S, terms: &[TermId], i: usize) -> TermId
    requires { AreTerms (S.store store.now) terms.now }
    ensures { HasTerm (S.store store.now) result }
{
    assert!(rt; i < terms.len());
    terms[i]
}

#[tactic(auto, using(hol_terms::proofs::KeepsLemmas::keeps_trans))]
fn type_of<S: Terms>(
    rt: &impl Abort,
    store: &mut S,
    types: &[TypeId],
    row: TypeRow<'_>,
) -> Result<TypeId, Fail>
    requires { AreTypes (S.store store.old) types.now }
    ensures there { IfOk result (λ t. HasType (S.store store.new).types t) }
    ensures keeps { IfOk result (λ _. Keeps (S.store store.old) (S.store store.new)) }
{
    match row {
        TypeRow::Bool => {
            let t = store.intern_type(TypeNode::Bool)?;
            Ok(t)
        }
        TypeRow::Var(text) => {
            let name = store.name(text)?;
            let t = store.intern_type(TypeNode::Var(name))?;
            Ok(t)
        }
        TypeRow::Fun(from, to) => {
            let from = type_at(rt, store, types, from);
            let to = type_at(rt, store, types, to);
            let t = store.intern_type(TypeNode::Fun(from, to))?;
            Ok(t)
        }
    }
}

/// The types of a table.
#[tactic(auto, using(hol_terms::proofs::KeepsLemmas::keeps_trans, crate::proofs::TestLemmas::types_kept, crate::proofs::TestLemmas::types_push, crate::proofs::TestLemmas::no_types))]
pub(crate) fn types_of<S: Terms>(
    rt: &impl Abort,
    store: &mut S,
    rows: &[TypeRow<'_>],
) -> Result<Vec<TypeId>, Fail>
    ensures are { IfOk result (λ ts. AreTypes (S.store store.new) ts.items) }
    ensures keeps { IfOk result (λ _. Keeps (S.store store.old) (S.store store.new)) }
{
    let mut types = Vec::new(store.allocator());
    for row in rows {
        let t = type_of(rt, store, types.as_slice(), *row)?;
        types.push(t)?;
    }
    Ok(types)
}

#[tactic(auto, using(hol_terms::proofs::KeepsLemmas::keeps_trans))]
fn term_of<S: Terms>(
    rt: &impl Abort,
    store: &mut S,
    types: &[TypeId],
    terms: &[TermId],
    row: TermRow<'_>,
) -> Result<TermId, Fail>
    requires types { AreTypes (S.store store.old) types.now }
    requires terms { AreTerms (S.store store.old) terms.now }
    ensures there { IfOk result (λ t. HasTerm (S.store store.new) t) }
    ensures keeps { IfOk result (λ _. Keeps (S.store store.old) (S.store store.new)) }
{
    match row {
        TermRow::Free(kind, text, ty) => {
            let ty = type_at(rt, store, types, ty);
            let name = store.name(text)?;
            let t = store.intern(Node::Free(kind, name, ty))?;
            Ok(t)
        }
        TermRow::Bound(index, ty) => {
            let ty = type_at(rt, store, types, ty);
            let t = store.intern(Node::Bound(index, ty))?;
            Ok(t)
        }
        TermRow::Const(text, ty) => {
            let ty = type_at(rt, store, types, ty);
            let name = store.name(text)?;
            let t = store.intern(Node::Const(name, ty))?;
            Ok(t)
        }
        TermRow::App(f, x) => {
            let f = term_at(rt, store, terms, f);
            let x = term_at(rt, store, terms, x);
            let t = store.intern(Node::App(f, x))?;
            Ok(t)
        }
        TermRow::Lam(ty, body) => {
            let ty = type_at(rt, store, types, ty);
            let body = term_at(rt, store, terms, body);
            let t = store.intern(Node::Lam(ty, body))?;
            Ok(t)
        }
    }
}

/// The terms of a table, over types.
#[tactic(auto, using(hol_terms::proofs::KeepsLemmas::keeps_trans, crate::proofs::TestLemmas::types_kept, crate::proofs::TestLemmas::terms_kept, crate::proofs::TestLemmas::terms_push, crate::proofs::TestLemmas::no_terms))]
pub(crate) fn terms_of<S: Terms>(
    rt: &impl Abort,
    store: &mut S,
    types: &[TypeId],
    rows: &[TermRow<'_>],
) -> Result<Vec<TermId>, Fail>
    requires { AreTypes (S.store store.old) types.now }
    ensures are { IfOk result (λ ts. AreTerms (S.store store.new) ts.items) }
    ensures keeps { IfOk result (λ _. Keeps (S.store store.old) (S.store store.new)) }
{
    let mut terms = Vec::new(store.allocator());
    for row in rows {
        let t = term_of(rt, store, types, terms.as_slice(), *row)?;
        terms.push(t)?;
    }
    Ok(terms)
}
