//! Terms.
ghost use Rattle.std.specs.Prelude.{◌≡◌, ◌&&◌, nat_eq, true, IfOk, OnOk};
ghost use Rattle.hol_terms.specs.TermStore.{Keeps, HasTerm, term_tree};
ghost use Rattle.sexp.specs.Forest.{tree_at, trees_at, HasTree, IsRun};
ghost use Rattle.goal_text.specs.Forms as forms;
ghost use Rattle.goal_text.specs.Lexicon as lexicon;
ghost use Rattle.goal_text.specs.Names.{bound_to};
ghost use Rattle.goal_text.specs.Read.{Gives};
ghost use Rattle.goal_text.specs.Scope.{AreTerms, IsScope, divides_by, env_of, terms_at};
ghost use Rattle.goal_text.specs.Terms as terms;

use crate::built::leave;
use crate::constants::truth_value;
use crate::fault::{GoalFailure, GoalKind, refuse};
use crate::form::{Head, enter};
use crate::lexicon::{is_number, is_variable, value};
use crate::made::typed;
use crate::scope::{Scope, constant_of, variable_of};
use crate::tree::{misplaced, parts_at};
use hol_terms::{Base, Node, TermId, Terms};
use sexp::Forest;

/// A number below 2^127.
fn literal(base: &mut Base, at: u32, text: &[u8]) -> Result<TermId, GoalFailure>
    requires { lexicon.is_number text.now ≡ true }
    ensures read { Gives (term_tree base.new) result (terms.literal_of at text.now) }
    ensures there { IfOk result (HasTerm base.new) }
    ensures keeps { Keeps base.old base.new }
{
    match value(text) {
        Some(n) => typed(base, Node::Num(n as i128)),
        None => refuse(at, GoalKind::Number),
    }
}

/// The innermost variable of a name, or the constant.
#[tactic(auto, unfolding(crate::specs::Scope::env_of))]
fn named(base: &mut Base, scope: &Scope, at: u32, text: &[u8]) -> Result<TermId, GoalFailure>
    requires scope { IsScope base.old scope.now }
    ensures read { Gives (term_tree base.new) result (terms.name_by (bound_to (env_of base.old scope.now).binders text.now) (env_of base.old scope.now) at text.now) }
    ensures there { IfOk result (HasTerm base.new) }
    ensures keeps { Keeps base.old base.new }
{
    if let Some((within, ty)) = variable_of(base, &scope.binders, text) {
        return typed(base, Node::Bound(within, ty));
    }
    match constant_of(base, &scope.consts, text) {
        Some(c) => {
            if c.monomorphic {
                typed(base, Node::Const(c.name, c.ty))
            } else {
                refuse(at, GoalKind::FreeTypeVariable)
            }
        }
        None => refuse(at, GoalKind::UnknownName),
    }
}

/// The term that an atom is read as.
#[tactic(auto, unfolding(crate::specs::Terms::atom_of))]
fn atom(base: &mut Base, scope: &Scope, at: u32, text: &[u8]) -> Result<TermId, GoalFailure>
    requires scope { IsScope base.old scope.now }
    ensures read { Gives (term_tree base.new) result (terms.atom_of (env_of base.old scope.now) at text.now) }
    ensures there { IfOk result (HasTerm base.new) }
    ensures keeps { Keeps base.old base.new }
{
    if is_number(text) {
        literal(base, at, text)
    } else if text == b"true".as_slice() {
        truth_value(base, b"true".as_slice())
    } else if text == b"false".as_slice() {
        truth_value(base, b"false".as_slice())
    } else if is_variable(text) {
        named(base, scope, at, text)
    } else {
        refuse(at, GoalKind::Syntax)
    }
}

/// A number from 1.
#[tactic(auto, unfolding(crate::specs::Terms::divisor_of))]
fn divisor(base: &mut Base, forest: &Forest, i: u32) -> Result<TermId, GoalFailure>
    requires { HasTree forest.now i }
    ensures read { Gives (term_tree base.new) result (terms.divisor_of (tree_at forest.now i)) }
    ensures there { IfOk result (HasTerm base.new) }
    ensures keeps { Keeps base.old base.new }
{
    let Some(text) = forest.atom(i) else {
        return misplaced(forest, i);
    };
    if !is_number(text) {
        return misplaced(forest, i);
    }
    match value(text) {
        Some(0) => misplaced(forest, i),
        _ => literal(base, forest.start(i), text),
    }
}

/// Whether a form's second part is a number from 1.
fn divides(head: Head) -> bool
    ensures { result ≡ divides_by head }
{
    match head {
        Head::Operation(operator) => operator.divides(),
        Head::Applied => false,
        Head::Instance(_, _, _) => false,
        Head::Negative => false,
        Head::Binding(_, _) => false,
        Head::Ascription(_, _, _) => false,
    }
}

/// Whether the part with so many before it is a number from 1.
fn is_divisor(divides: bool, n: usize) -> bool
    ensures { result ≡ (divides && nat_eq n 1) }
{
    divides && n == 1
}

/// The term that a tree is read as.
#[cycle(term)]
#[tactic(auto, unfolding(crate::specs::Terms::term_of), using(hol_terms::proofs::KeepsLemmas::keeps_trans))]
pub fn term_at(
    base: &mut Base,
    scope: &mut Scope,
    forest: &Forest,
    i: u32,
) -> Result<TermId, GoalFailure>
    requires scope { IsScope base.old scope.old }
    requires tree { HasTree forest.now i }
    ensures read { Gives (term_tree base.new) result (terms.term_of (env_of base.old scope.old) (tree_at forest.now i)) }
    ensures there { IfOk result (HasTerm base.new) }
    ensures scope { OnOk result (scope.new ≡ scope.old) }
    ensures keeps { Keeps base.old base.new }
{
    let at = forest.start(i);
    if let Some(text) = forest.atom(i) {
        return atom(base, scope, at, text);
    }
    let Some((first, end)) = parts_at(forest, i) else {
        return refuse(at, GoalKind::Syntax);
    };
    let form = enter(base, scope, forest, at, first, end)?;
    let parts = terms_at(base, scope, forest, divides(form.head), form.first, end)?;
    let t = leave(base, scope, at, form.head, &parts)?;
    Ok(t)
}

/// The terms that the trees of a run are read as, where `divides` the second as a number from 1.
#[cycle(term)]
#[tactic(auto, using(hol_terms::proofs::KeepsLemmas::keeps_trans))]
fn terms_at(
    base: &mut Base,
    scope: &mut Scope,
    forest: &Forest,
    divides: bool,
    first: u32,
    end: u32,
) -> Result<Vec<TermId>, GoalFailure>
    requires scope { IsScope base.old scope.old }
    requires run { IsRun forest.now first end }
    ensures read { Gives (λ ts. terms_at base.new ts.items) result (terms.terms_of (env_of base.old scope.old) (forms.operands divides) (trees_at forest.now first end)) }
    ensures there { IfOk result (λ ts. AreTerms base.new ts.items) }
    ensures scope { OnOk result (scope.new ≡ scope.old) }
    ensures is_scope { OnOk result (IsScope base.new scope.new) }
    ensures keeps { Keeps base.old base.new }
{
    let mut terms = Vec::new(base.allocator());
    let mut i = first;
    while let Some(after) = forest.next(i, end) {
        if is_divisor(divides, terms.len()) {
            let n = divisor(base, forest, i)?;
            terms.push(n)?;
            i = after;
            continue;
        }
        let t = term_at(base, scope, forest, i)?;
        terms.push(t)?;
        i = after;
    }
    Ok(terms)
}
