//! Derivations of equations, worked by hand in natural deduction.
use crate::calls::{Call, OfTerm, OfTwo, TwoAndTerm, WithTerm, WithTwo};
use crate::script::{Answer, script};
use crate::tables::{TermRow, TypeRow};
use hol_terms::FreeKind;
use std::test::Fail;

// `(= (f a) (f b))` from `(= a b)`
#[test]
fn congruence(rt: HostRuntime) -> Result<(), Fail> {
    let types = [
        TypeRow::Var(b"'a"),
        TypeRow::Bool,
        TypeRow::Fun(0, 0),
        TypeRow::Fun(0, 1),
        TypeRow::Fun(0, 3),
    ];
    let terms = [
        TermRow::Free(FreeKind::Symbol, b"a", 0),
        TermRow::Free(FreeKind::Symbol, b"b", 0),
        TermRow::Free(FreeKind::Symbol, b"f", 2),
        TermRow::Const(b"eq", 4),
        TermRow::App(3, 0),
        TermRow::App(4, 1),
        TermRow::App(2, 0),
        TermRow::App(2, 1),
        TermRow::App(3, 6),
        TermRow::App(8, 7),
        TermRow::App(8, 6),
        TermRow::Bound(0, 0),
        TermRow::App(2, 11),
        TermRow::App(8, 12),
        TermRow::Lam(0, 13),
    ];
    let lines = [
        (Call::OfTerm(OfTerm::Assume, 5), Answer::Says(&[5], 5)),
        (Call::OfTerm(OfTerm::Refl, 6), Answer::Says(&[], 10)),
        (
            Call::TwoAndTerm(TwoAndTerm::Subst, 0, 1, 14),
            Answer::Says(&[5], 9),
        ),
        (Call::TwoAndTerm(TwoAndTerm::Subst, 0, 0, 14), Answer::Shape),
        (Call::TwoAndTerm(TwoAndTerm::Subst, 0, 1, 6), Answer::Shape),
        (Call::TwoAndTerm(TwoAndTerm::Subst, 1, 1, 14), Answer::Shape),
        (Call::WithTerm(WithTerm::Ext, 2, 0), Answer::Shape),
    ];
    script(&rt, rt.alloc(), &types, &terms, &lines)
}

// `(= (lambda x (f x)) f)`
#[test]
fn eta(rt: HostRuntime) -> Result<(), Fail> {
    let types = [
        TypeRow::Var(b"'a"),
        TypeRow::Bool,
        TypeRow::Fun(0, 0),
        TypeRow::Fun(0, 1),
        TypeRow::Fun(0, 3),
        TypeRow::Fun(2, 1),
        TypeRow::Fun(2, 5),
    ];
    let terms = [
        TermRow::Free(FreeKind::Symbol, b"f", 2),
        TermRow::Free(FreeKind::Open, b"x", 0),
        TermRow::Bound(0, 0),
        TermRow::App(0, 2),
        TermRow::Lam(0, 3),
        TermRow::App(4, 1),
        TermRow::App(0, 1),
        TermRow::Const(b"eq", 4),
        TermRow::App(7, 5),
        TermRow::App(8, 6),
        TermRow::Const(b"eq", 6),
        TermRow::App(10, 4),
        TermRow::App(11, 0),
    ];
    let lines = [
        (Call::OfTerm(OfTerm::Beta, 5), Answer::Says(&[], 9)),
        (Call::WithTerm(WithTerm::Ext, 0, 1), Answer::Says(&[], 12)),
        (Call::OfTerm(OfTerm::Beta, 6), Answer::Shape),
        (Call::WithTerm(WithTerm::Ext, 0, 6), Answer::Shape),
        (Call::WithTerm(WithTerm::Ext, 1, 1), Answer::Shape),
        (Call::OfTerm(OfTerm::Assume, 9), Answer::Says(&[9], 9)),
        (Call::WithTerm(WithTerm::Ext, 2, 1), Answer::Shape),
    ];
    script(&rt, rt.alloc(), &types, &terms, &lines)
}

// Each branch of a conditional, and the equation of two formulas that follow from each other.
#[test]
fn branches(rt: HostRuntime) -> Result<(), Fail> {
    let types = [
        TypeRow::Bool,
        TypeRow::Fun(0, 0),
        TypeRow::Fun(0, 1),
        TypeRow::Fun(0, 2),
    ];
    let terms = [
        TermRow::Free(FreeKind::Symbol, b"c", 0),
        TermRow::Free(FreeKind::Symbol, b"t", 0),
        TermRow::Free(FreeKind::Symbol, b"u", 0),
        TermRow::Const(b"not", 1),
        TermRow::Const(b"eq", 2),
        TermRow::Const(b"ite", 3),
        TermRow::App(3, 0),
        TermRow::App(5, 0),
        TermRow::App(7, 1),
        TermRow::App(8, 2),
        TermRow::App(4, 9),
        TermRow::App(10, 1),
        TermRow::App(10, 2),
        TermRow::App(4, 0),
        TermRow::App(13, 0),
        TermRow::App(13, 6),
    ];
    let lines = [
        (Call::OfTerm(OfTerm::Assume, 0), Answer::Says(&[0], 0)),
        (Call::OfTerm(OfTerm::Assume, 6), Answer::Says(&[6], 6)),
        (
            Call::WithTwo(WithTwo::IteT, 0, 1, 2),
            Answer::Says(&[0], 11),
        ),
        (
            Call::WithTwo(WithTwo::IteF, 1, 1, 2),
            Answer::Says(&[6], 12),
        ),
        (Call::WithTwo(WithTwo::IteT, 0, 1, 3), Answer::Shape),
        (Call::WithTwo(WithTwo::IteF, 0, 1, 2), Answer::Shape),
        (Call::WithTwo(WithTwo::IteF, 1, 1, 3), Answer::Shape),
        (Call::OfTwo(OfTwo::IffI, 0, 0), Answer::Says(&[], 14)),
        (Call::OfTwo(OfTwo::IffI, 1, 0), Answer::Says(&[6, 0], 15)),
    ];
    script(&rt, rt.alloc(), &types, &terms, &lines)
}
