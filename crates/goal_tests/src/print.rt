//! How goals are printed. The expected texts are worked out by hand from the rules.
use crate::goal::{declared, is_same};
use goal_print::print_goal;
use goal_text::{GoalFailure, read_goal};
use hol_types::Bytes;
use std::alloc::{AllocError, Global};

/// The text of a file's goal, and nothing where the file is refused.
fn printed(alloc: Global, text: &[u8]) -> Result<Vec<u8>, AllocError> {
    let mut out = Bytes::with_capacity(alloc, 0)?;
    match read_goal(alloc, text) {
        Ok(problem) => print_goal(alloc, &problem, &mut out)?,
        Err(GoalFailure::Memory) => return Err(AllocError),
        Err(_) => {}
    }
    Ok(out.into_vec())
}

/// Two terms side by side.
fn both(alloc: Global, one: &[u8], other: &[u8]) -> Result<Vec<u8>, AllocError> {
    let mut text = Vec::new(alloc);
    text.extend_from_slice(one)?;
    text.extend_from_slice(b" ")?;
    text.extend_from_slice(other)?;
    Ok(text)
}

/// Each form. What is printed reads as the same term, and is printed as itself.
#[test]
fn forms(rt: HostRuntime) -> Result<(), AllocError> {
    for (goal, want) in [
        (&b"(and p (and q r))"[..], &b"(and p q r)"[..]),
        (&b"(and (and p q) r)"[..], &b"(and (and p q) r)"[..]),
        (
            &b"(or p (not q) (and p q))"[..],
            &b"(or p (not q) (and p q))"[..],
        ),
        (&b"(=> p q r)"[..], &b"(=> p (=> q r))"[..]),
        (&b"(= x y z)"[..], &b"(and (= x y) (= y z))"[..]),
        (&b"(>= x y)"[..], &b"(<= y x)"[..]),
        (
            &b"(= (+ (+ x y) z) (+ x (+ y z)))"[..],
            &b"(= (+ x y z) (+ x (+ y z)))"[..],
        ),
        (&b"(= (- x y z) 007)"[..], &b"(= (- (- x y) z) 7)"[..]),
        (&b"(= (- 5) (- (- 5)))"[..], &b"(= (- 5) (- (- 5)))"[..]),
        // (- 0) is the number 0, and (- (- 0)) its negative
        (&b"(= (- 0) (- (- 0)))"[..], &b"(= 0 (- (- 0)))"[..]),
        (
            &b"(= (div x 2) (mod (- x) 3))"[..],
            &b"(= (div x 2) (mod (- x) 3))"[..],
        ),
        (&b"(= (id x) x)"[..], &b"(= ((as id (-> Int Int)) x) x)"[..]),
        (
            &b"(= ((ite p f f) x) (ite q x y))"[..],
            &b"(= ((ite p f f) x) (ite q x y))"[..],
        ),
        (
            &b"(forall ((a Int)) (forall ((b Bool)) (=> b (exists ((c Int)) (= a c)))))"[..],
            &b"(forall ((?v0 Int) (?v1 Bool)) (=> ?v1 (exists ((?v2 Int)) (= ?v0 ?v2))))"[..],
        ),
        (
            &b"(= (lambda ((a Int) (b (-> Int (-> (-> Int 'b) Bool)))) a) (lambda ((a Int) (b (-> Int (-> Int 'b) Bool))) 0))"[..],
            &b"(= (lambda ((?v0 Int) (?v1 (-> Int (-> Int 'b) Bool))) ?v0) (lambda ((?v0 Int) (?v1 (-> Int (-> Int 'b) Bool))) 0))"[..],
        ),
    ] {
        let text = declared(rt.alloc(), goal)?;
        assert_eq!(rt; printed(rt.alloc(), &text)?.as_slice(), want);
        let again = declared(rt.alloc(), want)?;
        assert_eq!(rt; printed(rt.alloc(), &again)?.as_slice(), want);
        let pair = both(rt.alloc(), goal, want)?;
        assert_eq!(rt; is_same(rt.alloc(), &pair)?, Some(true));
    }
    Ok(())
}

/// Type constructors, a constant with type variables, and variables of two binders side by side.
#[test]
fn types(rt: HostRuntime) -> Result<(), AllocError> {
    for (text, want) in [
        (
            &b"(type list 1)(const l (list Int))(const map (-> (-> 'a 'b) (list 'a) (list 'b)))(goal (= (map (lambda ((x Int)) (+ x 1)) l) l))"[..],
            &b"(= ((as map (-> (-> Int Int) (list Int) (list Int))) (lambda ((?v0 Int)) (+ ?v0 1)) l) l)"[..],
        ),
        (
            &b"(goal (and (forall ((x Int)) (= x x)) (forall ((x Bool)) (= x x))))"[..],
            &b"(and (forall ((?v0 Int)) (= ?v0 ?v0)) (forall ((?v0 Bool)) (= ?v0 ?v0)))"[..],
        ),
        (
            &b"(type unit 0)(type pair 2)(const c (pair (pair unit 'a) 'b))(goal (forall ((x unit)) (= (as c (pair (pair unit Int) (-> (-> Int Int) Bool))) (as c (pair (pair unit Int) (-> (-> Int Int) Bool))))))"[..],
            &b"(forall ((?v0 unit)) (= (as c (pair (pair unit Int) (-> (-> Int Int) Bool))) (as c (pair (pair unit Int) (-> (-> Int Int) Bool)))))"[..],
        ),
    ] {
        assert_eq!(rt; printed(rt.alloc(), text)?.as_slice(), want);
    }
    Ok(())
}
