//! What a list of a term is on entry.
ghost use Rattle.std.specs.Prelude.{◌≡◌, ◌≤◌, ◌∷◌, [], drop, take, IfOk, OnOk, Ok};
ghost use Rattle.hol_types.specs.TypeStore.{HasName, HasType, text_of, type_tree};
ghost use Rattle.hol_terms.specs.TermStore.{Keeps};
ghost use Rattle.sexp.specs.Forest.{tree_at, trees_at, HasTree, IsRun};
ghost use Rattle.goal_text.specs.Forms as forms;
ghost use Rattle.goal_text.specs.Names.{Env};
ghost use Rattle.goal_text.specs.Read.{Gives};
ghost use Rattle.goal_text.specs.Scope.{Applies, Ascribes, Binds, HasHead, IsOperation, IsScope, KeepsDeclared, binders_in, bound_by, env_of, form_at, form_of_operation, one_binder, rest_of, types_in};
ghost use Rattle.goal_text.specs.Terms.{terms_of};

use crate::fault::{GoalFailure, GoalKind, refuse};
use crate::lexicon::is_number;
use crate::scope::{Scope, constant_of, variable_of};
use crate::tree::{count_at, misplaced, name_at, parts_at, two_at, variable_at};
use crate::types::type_at;
use crate::word::{Binder, Operator, Word, word_in};
use hol_terms::{Base, Terms};
use hol_types::{NameId, TypeId};
use sexp::Forest;

/// What a list of a term is.
#[derive(Clone, Copy, Debug)]
pub enum Head {
    /// `(t t ..)`
    Applied,
    /// `(c t ..)`, with the place of the constant, its name and its declared type, which has type variables.
    Instance(u32, NameId, TypeId),
    /// `(- n)` with a number n
    Negative,
    /// An operation on parts.
    Operation(Operator),
    /// A binder with so many variables, which are the innermost of the scope.
    Binding(Binder, u32),
    /// `(as c T)`, with the constant's name, its declared type, and T
    Ascription(NameId, TypeId, TypeId),
}

/// What a list of a term is, and the number of the first tree of it that is read as a term.
#[derive(Clone, Copy, Debug)]
pub struct Entered {
    pub head: Head,
    pub first: u32,
}

/// An application, whose function stands at `first`, with arguments from `second` on.
#[tactic(auto, unfolding(crate::specs::Forms::application, crate::specs::Scope::env_of))]
fn application(base: &Base, scope: &Scope, forest: &Forest, first: u32, second: u32) -> Entered
    requires scope { IsScope base.now scope.now }
    requires tree { HasTree forest.now first }
    ensures form { form_at base.now scope.now result.head ≡ forms.application (env_of base.now scope.now) (tree_at forest.now first) }
    ensures head { HasHead base.now result.head }
    ensures applies { Applies result.head first second result.first }
{
    let applied = Entered {
        head: Head::Applied,
        first,
    };
    let Some(text) = forest.atom(first) else {
        return applied;
    };
    if variable_of(base, &scope.binders, text).is_some() {
        return applied;
    }
    match constant_of(base, &scope.consts, text) {
        Some(c) => {
            if c.monomorphic {
                applied
            } else {
                Entered {
                    head: Head::Instance(forest.start(first), c.name, c.ty),
                    first: second,
                }
            }
        }
        None => applied,
    }
}

/// Whether a run is just a number.
fn is_literal(forest: &Forest, first: u32, end: u32) -> bool
    requires { IsRun forest.now first end }
    ensures { result ≡ forms.is_literal (trees_at forest.now first end) }
{
    let Some(after) = forest.next(first, end) else {
        return false;
    };
    if forest.next(after, end).is_some() {
        return false;
    }
    match forest.atom(first) {
        Some(text) => is_number(text),
        None => false,
    }
}

/// An operation on the parts of a run.
#[tactic(auto, unfolding(crate::specs::Forms::operation))]
fn operation(
    forest: &Forest,
    at: u32,
    operator: Operator,
    first: u32,
    end: u32,
) -> Result<Head, GoalFailure>
    requires { IsRun forest.now first end }
    ensures form { Gives form_of_operation result (forms.operation at operator (trees_at forest.now first end)) }
    ensures head { IfOk result (IsOperation operator) }
{
    if !operator.takes(count_at(forest, first, end)) {
        return refuse(at, GoalKind::Syntax);
    }
    if operator.is_minus() && is_literal(forest, first, end) {
        Ok(Head::Negative)
    } else {
        Ok(Head::Operation(operator))
    }
}

/// Binds the variable of an entry `(x T)`.
#[tactic(auto, using(hol_terms::proofs::KeepsLemmas::keeps_trans), unfolding(crate::specs::Forms::binder_of))]
fn bind(base: &mut Base, scope: &mut Scope, forest: &Forest, i: u32) -> Result<(), GoalFailure>
    requires scope { IsScope base.old scope.old }
    requires tree { HasTree forest.now i }
    ensures read { Gives (λ _. binders_in base.new (take 1 scope.new.binders)) result (one_binder (forms.binder_of (types_in scope.old.types) (tree_at forest.now i))) }
    ensures outer { OnOk result (drop 1 scope.new.binders ≡ scope.old.binders) }
    ensures scope { OnOk result (IsScope base.new scope.new) }
    ensures others { OnOk result (KeepsDeclared scope.old scope.new) }
    ensures keeps { Keeps base.old base.new }
{
    let Some((first, end)) = parts_at(forest, i) else {
        return misplaced(forest, i);
    };
    let (name, ty) = two_at(forest, forest.start(i), first, end)?;
    let text = variable_at(forest, name)?;
    let t = type_at(base, &scope.types, forest, ty)?;
    scope.binders.bind(text, t)?;
    Ok(())
}

/// Binds the variables of entries, each within those before it, and counts them.
fn bind_all(
    base: &mut Base,
    scope: &mut Scope,
    forest: &Forest,
    first: u32,
    end: u32,
) -> Result<u32, GoalFailure>
    requires scope { IsScope base.old scope.old }
    requires run { IsRun forest.now first end }
    ensures read { Gives (λ n. binders_in base.new (take n scope.new.binders)) result (forms.binders_of (types_in scope.old.types) [] (trees_at forest.now first end)) }
    ensures outer { IfOk result (λ n. drop n scope.new.binders ≡ scope.old.binders) }
    ensures scope { OnOk result (IsScope base.new scope.new) }
    ensures others { OnOk result (KeepsDeclared scope.old scope.new) }
    ensures keeps { Keeps base.old base.new }
{
    let mut n = 0;
    let mut i = first;
    while let Some(after) = forest.next(i, end) {
        bind(base, scope, forest, i)?;
        n += 1;
        i = after;
    }
    Ok(n)
}

/// Binds the variables of a binder list, and counts them.
#[tactic(auto, unfolding(crate::specs::Forms::binder_list))]
fn binder_list(
    base: &mut Base,
    scope: &mut Scope,
    forest: &Forest,
    i: u32,
) -> Result<u32, GoalFailure>
    requires scope { IsScope base.old scope.old }
    requires tree { HasTree forest.now i }
    ensures read { Gives (λ n. binders_in base.new (take n scope.new.binders)) result (forms.binder_list (types_in scope.old.types) (tree_at forest.now i)) }
    ensures outer { IfOk result (λ n. drop n scope.new.binders ≡ scope.old.binders) }
    ensures scope { OnOk result (IsScope base.new scope.new) }
    ensures others { OnOk result (KeepsDeclared scope.old scope.new) }
    ensures keeps { Keeps base.old base.new }
{
    let Some((first, end)) = parts_at(forest, i) else {
        return misplaced(forest, i);
    };
    match forest.next(first, end) {
        Some(_) => bind_all(base, scope, forest, first, end),
        None => refuse(forest.start(i), GoalKind::Syntax),
    }
}

/// A binder list and a body.
#[tactic(auto, unfolding(crate::specs::Forms::binding, crate::specs::Terms::terms_of))]
fn binding(
    base: &mut Base,
    scope: &mut Scope,
    forest: &Forest,
    at: u32,
    binder: Binder,
    first: u32,
    end: u32,
) -> Result<Entered, GoalFailure>
    requires scope { IsScope base.old scope.old }
    requires run { IsRun forest.now first end }
    ensures form { Gives (λ e. form_at base.new scope.new e.head) result (forms.binding (types_in scope.old.types) at binder (trees_at forest.now first end)) }
    ensures head { IfOk result (λ e. HasHead base.new e.head) }
    ensures parts { IfOk result (λ e. (names : Env) → terms_of names (forms.Skipped ∷ []) (trees_at forest.now first end) ≡ terms_of names [] (trees_at forest.now e.first end)) }
    ensures binds { IfOk result (λ e. Binds e.head) }
    ensures run { IfOk result (λ e. IsRun forest.now e.first end) }
    ensures from { IfOk result (λ e. first ≤ e.first) }
    ensures outer { IfOk result (λ e. drop (bound_by e.head) scope.new.binders ≡ scope.old.binders) }
    ensures scope { OnOk result (IsScope base.new scope.new) }
    ensures others { OnOk result (KeepsDeclared scope.old scope.new) }
    ensures keeps { Keeps base.old base.new }
{
    let (list, body) = two_at(forest, at, first, end)?;
    let n = binder_list(base, scope, forest, list)?;
    Ok(Entered {
        head: Head::Binding(binder, n),
        first: body,
    })
}

/// A declared constant that no variable hides: its name and its type.
#[tactic(auto, unfolding(crate::specs::Forms::constant_of, crate::specs::Scope::env_of))]
fn constant_at(
    base: &Base,
    scope: &Scope,
    forest: &Forest,
    i: u32,
) -> Result<(NameId, TypeId), GoalFailure>
    requires scope { IsScope base.now scope.now }
    requires tree { HasTree forest.now i }
    ensures read { Gives (λ c. (text_of base.now.types c.0, type_tree base.now.types c.1)) result (forms.constant_of (env_of base.now scope.now) (tree_at forest.now i)) }
    ensures name { IfOk result (λ c. HasName base.now.types c.0) }
    ensures ty { IfOk result (λ c. HasType base.now.types c.1) }
{
    let name = name_at(forest, i)?;
    if variable_of(base, &scope.binders, name).is_some() {
        return refuse(forest.start(i), GoalKind::UnknownName);
    }
    match constant_of(base, &scope.consts, name) {
        Some(c) => Ok((c.name, c.ty)),
        None => refuse(forest.start(i), GoalKind::UnknownName),
    }
}

/// `(as c T)`
#[tactic(auto, unfolding(crate::specs::Forms::ascription, crate::specs::Scope::env_of))]
fn ascription(
    base: &mut Base,
    scope: &Scope,
    forest: &Forest,
    at: u32,
    first: u32,
    end: u32,
) -> Result<Head, GoalFailure>
    requires scope { IsScope base.old scope.now }
    requires run { IsRun forest.now first end }
    ensures form { Gives (form_at base.new scope.now) result (forms.ascription (env_of base.old scope.now) at (trees_at forest.now first end)) }
    ensures head { IfOk result (HasHead base.new) }
    ensures ascribes { IfOk result Ascribes }
    ensures parts { OnOk result ((names : Env) → terms_of names (forms.Skipped ∷ forms.Skipped ∷ []) (trees_at forest.now first end) ≡ Ok []) }
    ensures keeps { Keeps base.old base.new }
{
    let (constant, ty) = two_at(forest, at, first, end)?;
    let (name, declared) = constant_at(base, scope, forest, constant)?;
    let t = type_at(base, &scope.types, forest, ty)?;
    Ok(Head::Ascription(name, declared, t))
}

/// The word that a tree is.
fn word_at(forest: &Forest, i: u32) -> Option<Word>
    requires { HasTree forest.now i }
    ensures { result ≡ forms.head_word (tree_at forest.now i) }
{
    match forest.atom(i) {
        Some(text) => word_in(text),
        None => None,
    }
}

/// What a list is by its head, its number of parts and its binder list, whose variables are bound.
#[tactic(auto, unfolding(crate::specs::Forms::form_of))]
pub fn enter(
    base: &mut Base,
    scope: &mut Scope,
    forest: &Forest,
    at: u32,
    first: u32,
    end: u32,
) -> Result<Entered, GoalFailure>
    requires scope { IsScope base.old scope.old }
    requires run { IsRun forest.now first end }
    ensures form { Gives (λ e. form_at base.new scope.new e.head) result (forms.form_of (env_of base.old scope.old) at (trees_at forest.now first end)) }
    ensures head { IfOk result (λ e. HasHead base.new e.head) }
    ensures parts { IfOk result (λ e. (names : Env) → terms_of names (forms.parts_of (form_at base.new scope.new e.head)) (trees_at forest.now first end) ≡ terms_of names (rest_of e.head) (trees_at forest.now e.first end)) }
    ensures inside { IfOk result (λ e. env_of base.new scope.new ≡ forms.inside (env_of base.old scope.old) (form_at base.new scope.new e.head)) }
    ensures run { IfOk result (λ e. IsRun forest.now e.first end) }
    ensures from { IfOk result (λ e. first ≤ e.first) }
    ensures outer { IfOk result (λ e. drop (bound_by e.head) scope.new.binders ≡ scope.old.binders) }
    ensures scope { OnOk result (IsScope base.new scope.new) }
    ensures others { OnOk result (KeepsDeclared scope.old scope.new) }
    ensures keeps { Keeps base.old base.new }
{
    let Some(second) = forest.next(first, end) else {
        return refuse(at, GoalKind::Syntax);
    };
    match word_at(forest, first) {
        Some(Word::Applies(operator)) => {
            let head = operation(forest, at, operator, second, end)?;
            Ok(Entered {
                head,
                first: second,
            })
        }
        Some(Word::Binds(binder)) => {
            let entered = binding(base, scope, forest, at, binder, second, end)?;
            Ok(entered)
        }
        Some(Word::Ascribes) => {
            let head = ascription(base, scope, forest, at, second, end)?;
            Ok(Entered { head, first: end })
        }
        None => match forest.next(second, end) {
            Some(_) => Ok(application(base, scope, forest, first, second)),
            None => refuse(at, GoalKind::Syntax),
        },
    }
}
