//! Goal files: their first faults with the places, and which texts say the same term. The expected places are counted by
//! hand from the grammar: `(goal ` has 6 bytes, `(const p Bool)` has 14.
ghost use Rattle.goal_text.specs.ItemsIn.{IsProblem};

use goal_text::{GoalFailure, GoalFault, GoalKind, Problem, read_goal};
use hol_terms::{Node, TermId, Terms};
use std::alloc::{AllocError, Global};

/// The first fault of a text, if it has one.
fn fault_of(alloc: Global, text: &[u8]) -> Result<Option<GoalFault>, AllocError> {
    match read_goal(alloc, text) {
        Ok(_) => Ok(None),
        Err(GoalFailure::Refused(fault)) => Ok(Some(fault)),
        Err(GoalFailure::Memory) => Err(AllocError),
    }
}

fn fault(at: u64, kind: GoalKind) -> Option<GoalFault> {
    Some(GoalFault { at, kind })
}

/// Each kind of fault, and the order of faults.
#[test]
fn faults(rt: HostRuntime) -> Result<(), AllocError> {
    for (text, want) in [
        (&b"(goal true)"[..], None),
        // white space, comments and words that aren't reserved
        (
            &b" ; \xff\n(const goal Bool)(fact goal)\t(goal goal);"[..],
            None,
        ),
        (&b"(goal true) \""[..], fault(12, GoalKind::BadByte)),
        (&b"(goal true))"[..], fault(11, GoalKind::Unopened)),
        (&b"(goal (not true)"[..], fault(0, GoalKind::Unclosed)),
        // a byte's fault goes before any other
        (&b"(goal r)\""[..], fault(8, GoalKind::BadByte)),
        (&b""[..], fault(0, GoalKind::NoGoal)),
        (&b"(const p Bool)"[..], fault(14, GoalKind::NoGoal)),
        (
            &b"(const p Bool)(goal p)(goal p)"[..],
            fault(22, GoalKind::TwoGoals),
        ),
        // the second goal's own faults come after that it is there
        (
            &b"(const p Bool)(goal p)(goal r)"[..],
            fault(22, GoalKind::TwoGoals),
        ),
        (&b"(goal r)"[..], fault(6, GoalKind::UnknownName)),
        (&b"(goal ?x)"[..], fault(6, GoalKind::UnknownName)),
        (&b"(fact 5)(goal true)"[..], fault(0, GoalKind::NotBool)),
        (&b"(goal 5)"[..], fault(0, GoalKind::NotBool)),
        (
            &b"(const p Bool)(const p Foo)"[..],
            fault(14, GoalKind::DeclaredTwice),
        ),
        (
            &b"(type s 0)(type s 9)"[..],
            fault(10, GoalKind::DeclaredTwice),
        ),
        // types and constants have separate names
        (&b"(type p 0)(const p p)(goal (= p p))"[..], None),
        (
            &b"(const p Bool)(goal (and p 5))"[..],
            fault(20, GoalKind::IllTyped),
        ),
        (
            &b"(goal (= 170141183460469231731687303715884105728 0))"[..],
            fault(9, GoalKind::Number),
        ),
        (
            &b"(goal (= (- 170141183460469231731687303715884105727) 0))"[..],
            None,
        ),
        (
            &b"(type s 170141183460469231731687303715884105728)"[..],
            fault(8, GoalKind::Number),
        ),
        (&b"(goal (= (div 7 0) 1))"[..], fault(16, GoalKind::Syntax)),
        (
            &b"(goal (= (mod 7 (- 2)) 1))"[..],
            fault(16, GoalKind::Syntax),
        ),
        // the parts of a division from left to right
        (
            &b"(goal (= (div r 0) 1))"[..],
            fault(14, GoalKind::UnknownName),
        ),
        (&b"(const div Int)"[..], fault(7, GoalKind::Syntax)),
        (
            &b"(type list 1)(const nil (list 'a))(goal (= nil nil))"[..],
            fault(43, GoalKind::FreeTypeVariable),
        ),
        // (const f (-> Int 'b)) has 21 bytes
        (
            &b"(const f (-> Int 'b))(goal (f 1))"[..],
            fault(28, GoalKind::FreeTypeVariable),
        ),
        (
            &b"(const f (-> Int 'b))(goal (f true))"[..],
            fault(27, GoalKind::IllTyped),
        ),
        (
            &b"(const f (-> Int 'b))(goal (f r))"[..],
            fault(30, GoalKind::UnknownName),
        ),
        (
            &b"(const id (-> 'a 'a))(goal ((id id) true))"[..],
            fault(32, GoalKind::FreeTypeVariable),
        ),
        (
            &b"(const f (-> Int 'b))(goal ((as f (-> Int Bool)) 1))"[..],
            None,
        ),
        (
            &b"(const f (-> Int 'b))(goal ((as f (-> Bool Bool)) true))"[..],
            fault(28, GoalKind::IllTyped),
        ),
    ] {
        assert_eq!(rt; fault_of(rt.alloc(), text)?, want);
    }
    Ok(())
}

/// What the grammar doesn't allow.
#[test]
fn grammar(rt: HostRuntime) -> Result<(), AllocError> {
    for (text, want) in [
        (&b"x"[..], fault(0, GoalKind::Syntax)),
        (&b" ()"[..], fault(1, GoalKind::Syntax)),
        (&b"(foo x)"[..], fault(0, GoalKind::Syntax)),
        (&b"(|goal| true)"[..], fault(0, GoalKind::Syntax)),
        (&b"(goal true true)"[..], fault(0, GoalKind::Syntax)),
        (&b"(goal |true|)"[..], fault(6, GoalKind::Syntax)),
        (&b"(goal (foo))"[..], fault(6, GoalKind::Syntax)),
        (&b"(goal ())"[..], fault(6, GoalKind::Syntax)),
        (&b"(goal (eq true true))"[..], fault(7, GoalKind::Syntax)),
        (
            &b"(goal (let ((x true)) x))"[..],
            fault(7, GoalKind::Syntax),
        ),
        // a number or a truth value at the head is applied
        (&b"(goal (true true))"[..], fault(6, GoalKind::IllTyped)),
        (&b"(goal (5 r))"[..], fault(9, GoalKind::UnknownName)),
        (&b"(goal (>= 1 2 3))"[..], fault(6, GoalKind::Syntax)),
        (&b"(goal (= 1))"[..], fault(6, GoalKind::Syntax)),
        (&b"(goal (= (+ 1) 1))"[..], fault(9, GoalKind::Syntax)),
        (
            &b"(goal (ite true 1 true))"[..],
            fault(6, GoalKind::IllTyped),
        ),
        // (forall has 8 bytes with the blank
        (&b"(goal (forall () true))"[..], fault(14, GoalKind::Syntax)),
        (
            &b"(goal (forall ((x Int 5)) true))"[..],
            fault(15, GoalKind::Syntax),
        ),
        (
            &b"(goal (forall ((and Int)) true))"[..],
            fault(16, GoalKind::Syntax),
        ),
        (
            &b"(goal (forall ((x Foo)) true))"[..],
            fault(18, GoalKind::UnknownName),
        ),
        (
            &b"(goal (forall ((x Int)) x))"[..],
            fault(6, GoalKind::IllTyped),
        ),
        (
            &b"(goal (and (forall ((?x Bool)) ?x) ?x))"[..],
            fault(35, GoalKind::UnknownName),
        ),
        // an inner variable hides a constant, also in an ascription
        (
            &b"(const p Bool)(goal (forall ((p Int)) p))"[..],
            fault(20, GoalKind::IllTyped),
        ),
        (
            &b"(const i Int)(goal (forall ((i Int)) (= (as i Int) 0)))"[..],
            fault(44, GoalKind::UnknownName),
        ),
        (&b"(const c (Bool Int))"[..], fault(10, GoalKind::Syntax)),
        (&b"(const c (-> Int))"[..], fault(9, GoalKind::Syntax)),
        (&b"(const c (t))"[..], fault(9, GoalKind::Syntax)),
        (&b"(const c t)"[..], fault(9, GoalKind::UnknownName)),
        (&b"(const c (t Int))"[..], fault(10, GoalKind::UnknownName)),
        (&b"(type s 1)(const c s)"[..], fault(19, GoalKind::Syntax)),
        (
            &b"(type s 1)(const c (s Int Int))"[..],
            fault(19, GoalKind::Syntax),
        ),
        (&b"(type s 9)"[..], fault(8, GoalKind::Syntax)),
        (&b"(type s 08)(const c (-> 'Int Bool))(goal true)"[..], None),
    ] {
        assert_eq!(rt; fault_of(rt.alloc(), text)?, want);
    }
    Ok(())
}

/// The two sides of an equation.
fn sides(problem: &Problem) -> Option<(TermId, TermId)>
    requires { IsProblem problem.now }
{
    let Node::App(f, right) = problem.base.node(problem.goal) else {
        return None;
    };
    let Node::App(_, left) = problem.base.node(f) else {
        return None;
    };
    Some((left, right))
}

/// A goal with the declarations of its constants.
pub fn declared(alloc: Global, goal: &[u8]) -> Result<Vec<u8>, AllocError> {
    let mut text = Vec::new(alloc);
    text.extend_from_slice(
        b"(const p Bool)(const q Bool)(const r Bool)(const x Int)(const y Int)(const z Int)",
    )?;
    text.extend_from_slice(b"(const id (-> 'a 'a))(const f (-> Int Int))(goal ")?;
    text.extend_from_slice(goal)?;
    text.extend_from_slice(b")")?;
    Ok(text)
}

/// Whether the two sides of a goal are one term, where it is read.
pub fn is_same(alloc: Global, goal: &[u8]) -> Result<Option<bool>, AllocError> {
    let mut equation = Vec::new(alloc);
    equation.extend_from_slice(b"(= ")?;
    equation.extend_from_slice(goal)?;
    equation.extend_from_slice(b")")?;
    let text = declared(alloc, &equation)?;
    match read_goal(alloc, &text) {
        Ok(problem) => match sides(&problem) {
            Some((left, right)) => Ok(Some(left == right)),
            None => Ok(None),
        },
        Err(GoalFailure::Memory) => Err(AllocError),
        Err(_) => Ok(None),
    }
}

/// Each form with what it is read as.
#[test]
fn readings(rt: HostRuntime) -> Result<(), AllocError> {
    for (goal, want) in [
        (&b"(and p q r) (and p (and q r))"[..], true),
        (&b"(and p q r) (and (and p q) r)"[..], false),
        (&b"(and p) p"[..], true),
        (&b"(or p q r) (or p (or q r))"[..], true),
        (&b"(or p q) (and p q)"[..], false),
        (&b"(=> p q r) (=> p (=> q r))"[..], true),
        (&b"(= x y z) (and (= x y) (= y z))"[..], true),
        (
            &b"(distinct x y z) (and (not (= x y)) (not (= x z)) (not (= y z)))"[..],
            true,
        ),
        (&b"(distinct x y) (not (= x y))"[..], true),
        (&b"(xor p q) (not (= p q))"[..], true),
        (&b"(ite p x y) (ite p y x)"[..], false),
        (&b"(+ x y z) (+ (+ x y) z)"[..], true),
        (&b"(* x y z) (* (* x y) z)"[..], true),
        (&b"(- x y z) (- (- x y) z)"[..], true),
        (&b"(<= x y z) (and (<= x y) (<= y z))"[..], true),
        (&b"(< x y z) (and (< x y) (< y z))"[..], true),
        (&b"(>= x y) (<= y x)"[..], true),
        (&b"(> x y) (< y x)"[..], true),
        (&b"(div x 2) (mod x 2)"[..], false),
        (&b"(div x 2) (div x 02)"[..], true),
        (&b"(- 0) 0"[..], true),
        // (- 5) is a number, and (- (- 5)) the negative of one
        (&b"(- (- 5)) 5"[..], false),
        (&b"007 7"[..], true),
        (
            &b"(forall ((a Int) (b Bool)) b) (forall ((a Int)) (forall ((c Bool)) c))"[..],
            true,
        ),
        (
            &b"(exists ((a Int)) true) (forall ((a Int)) true)"[..],
            false,
        ),
        (&b"(lambda ((a Int)) a) (lambda ((x Int)) x)"[..], true),
        (
            &b"(lambda ((a Int) (a Int)) a) (lambda ((a Int) (b Int)) b)"[..],
            true,
        ),
        (&b"(as x Int) x"[..], true),
        (&b"(id x) ((as id (-> Int Int)) x)"[..], true),
    ] {
        assert_eq!(rt; is_same(rt.alloc(), goal)?, Some(want));
    }
    Ok(())
}

fn repeated(alloc: Global, text: &[u8], times: usize) -> Result<Vec<u8>, AllocError> {
    let mut out = Vec::new(alloc);
    for _ in 0..times {
        out.extend_from_slice(text)?;
    }
    Ok(out)
}

/// `(goal`, then `(not` so many times, `true` and the closing parentheses.
fn nested(alloc: Global, times: usize) -> Result<Vec<u8>, AllocError> {
    let mut out = Vec::new(alloc);
    out.extend_from_slice(b"(goal ")?;
    out.extend_from_slice(&repeated(alloc, b"(not ", times)?)?;
    out.extend_from_slice(b"true")?;
    out.extend_from_slice(&repeated(alloc, b")", times)?)?;
    out.extend_from_slice(b")")?;
    Ok(out)
}

/// Limits: the length of a file, the depth of lists, the length of a name.
#[test]
fn limits(rt: HostRuntime) -> Result<(), AllocError> {
    let alloc = rt.alloc();
    // the 2,000th `(not ` begins at 6 + 5 * 1,999
    assert_eq!(rt;
        fault_of(alloc, &nested(alloc, 2000)?)?,
        fault(10001, GoalKind::TooDeep)
    );
    assert_eq!(rt; fault_of(alloc, &nested(alloc, 1999)?)?, None);
    let long = repeated(alloc, b" ", 4194305)?;
    assert_eq!(rt; fault_of(alloc, &long)?, fault(4194304, GoalKind::TooLong));
    for (times, want) in [(255, None), (256, fault(7, GoalKind::Syntax))] {
        let mut text = Vec::new(alloc);
        text.extend_from_slice(b"(const ")?;
        text.extend_from_slice(&repeated(alloc, b"a", times)?)?;
        text.extend_from_slice(b" Bool)(goal true)")?;
        assert_eq!(rt; fault_of(alloc, &text)?, want);
    }
    Ok(())
}
