//! What readers ask of trees.
ghost use Rattle.std.specs.Prelude.{◌≡◌, ◌<◌, ◌≤◌, Err, IfOk, MatchOption, if◌then◌else◌};
ghost use Rattle.sexp.specs.Tree.{AtomTree, ListTree, more_trees, count, place};
ghost use Rattle.sexp.specs.Forest.{tree_at, trees_at, after_of, HasTree, IsRun};
ghost use Rattle.goal_text.specs.Lexicon as lexicon;
ghost use Rattle.goal_text.specs.Read.{Gives};

use crate::fault::{GoalFailure, GoalKind, refuse};
use crate::lexicon::{is_name, is_number, is_variable, value};
use sexp::{Forest, RecKind};

/// Whether a text is a number that isn't below 2^127.
fn is_too_large(text: &[u8]) -> bool
    ensures { result ≡ lexicon.is_too_large text.now }
{
    is_number(text) && value(text).is_none()
}

/// What is wrong with an atom where the grammar allows none of its form.
fn misfit_of(text: &[u8]) -> GoalKind
    ensures { result ≡ (if lexicon.is_too_large text.now then GoalKind.Number else GoalKind.Syntax) }
{
    if is_too_large(text) {
        GoalKind::Number
    } else {
        GoalKind::Syntax
    }
}

/// What is wrong with a tree where the grammar allows none of its form.
fn misfit(forest: &Forest, i: u32) -> GoalKind
    requires { HasTree forest.now i }
    ensures { result ≡ lexicon.misfit (tree_at forest.now i) }
{
    match forest.atom(i) {
        Some(text) => misfit_of(text),
        None => GoalKind::Syntax,
    }
}

/// The fault of an atom where the grammar allows none of its form.
pub fn misplaced_atom<T>(at: u32, text: &[u8]) -> Result<T, GoalFailure>
    ensures { result ≡ Err (GoalFailure.Refused (record { at = at; kind = lexicon.misfit (AtomTree at text.now) })) }
{
    refuse(at, misfit_of(text))
}

/// The fault of a tree where the grammar allows none of its form.
pub fn misplaced<T>(forest: &Forest, i: u32) -> Result<T, GoalFailure>
    requires { HasTree forest.now i }
    ensures { result ≡ Err (GoalFailure.Refused (record { at = place (tree_at forest.now i); kind = lexicon.misfit (tree_at forest.now i) })) }
{
    refuse(forest.start(i), misfit(forest, i))
}

/// The numbers of a list's parts: the first, and the one past the last.
pub fn parts_at(forest: &Forest, i: u32) -> Option<(u32, u32)>
    requires { HasTree forest.now i }
    ensures { MatchOption result
        (lexicon.IsLeaf (tree_at forest.now i))
        (λ r. (tree_at forest.now i ≡ ListTree (place (tree_at forest.now i)) (trees_at forest.now r.0 r.1)) × IsRun forest.now r.0 r.1 × (i < r.0) × (r.1 ≡ after_of forest.now i)) }
{
    let end = forest.after(i);
    match forest.kind(i) {
        RecKind::List => Some((i + 1, end)),
        RecKind::Atom => None,
        RecKind::Quoted => None,
    }
}

/// The number of the only tree of a run, which is a list at the place.
#[tactic(auto, unfolding(crate::specs::Lexicon::one_of))]
pub fn one_at(forest: &Forest, at: u32, first: u32, end: u32) -> Result<u32, GoalFailure>
    requires { IsRun forest.now first end }
    ensures read { Gives (tree_at forest.now) result (lexicon.one_of at (trees_at forest.now first end)) }
    ensures there { IfOk result (HasTree forest.now) }
{
    let Some(after) = forest.next(first, end) else {
        return refuse(at, GoalKind::Syntax);
    };
    match forest.next(after, end) {
        Some(_) => refuse(at, GoalKind::Syntax),
        None => Ok(first),
    }
}

/// The numbers of the only two trees of a run, which is a list at the place.
#[tactic(auto, unfolding(crate::specs::Lexicon::two_of))]
pub fn two_at(forest: &Forest, at: u32, first: u32, end: u32) -> Result<(u32, u32), GoalFailure>
    requires { IsRun forest.now first end }
    ensures read { Gives (λ r. (tree_at forest.now r.0, tree_at forest.now r.1)) result (lexicon.two_of at (trees_at forest.now first end)) }
    ensures first { IfOk result (λ r. HasTree forest.now r.0) }
    ensures second { IfOk result (λ r. HasTree forest.now r.1) }
    ensures order { IfOk result (λ r. r.0 < r.1) }
    ensures from { IfOk result (λ r. first ≤ r.0) }
    ensures within { IfOk result (λ r. after_of forest.now r.1 ≤ end) }
    ensures rest { IfOk result (λ r. trees_at forest.now first end ≡ more_trees (tree_at forest.now r.0) (trees_at forest.now r.1 end)) }
    ensures run { IfOk result (λ r. IsRun forest.now r.1 end) }
{
    let Some(second) = forest.next(first, end) else {
        return refuse(at, GoalKind::Syntax);
    };
    let Some(third) = forest.next(second, end) else {
        return refuse(at, GoalKind::Syntax);
    };
    match forest.next(third, end) {
        Some(_) => refuse(at, GoalKind::Syntax),
        None => Ok((first, second)),
    }
}

/// How many trees a run has.
pub fn count_at(forest: &Forest, first: u32, end: u32) -> u32
    requires { IsRun forest.now first end }
    ensures { result ≡ count (trees_at forest.now first end) }
{
    let mut n = 0;
    let mut i = first;
    while let Some(after) = forest.next(i, end) {
        n += 1;
        i = after;
    }
    n
}

/// The name that may be declared.
#[tactic(auto, unfolding(crate::specs::Lexicon::name_of))]
pub fn name_at(forest: &Forest, i: u32) -> Result<&[u8], GoalFailure>
    requires { HasTree forest.now i }
    ensures { Gives (λ text. text.now) result (lexicon.name_of (tree_at forest.now i)) }
{
    match forest.atom(i) {
        Some(text) => {
            if is_name(text) {
                Ok(text)
            } else {
                misplaced(forest, i)
            }
        }
        None => misplaced(forest, i),
    }
}

/// The name that may be bound.
#[tactic(auto, unfolding(crate::specs::Lexicon::variable_of))]
pub fn variable_at(forest: &Forest, i: u32) -> Result<&[u8], GoalFailure>
    requires { HasTree forest.now i }
    ensures { Gives (λ text. text.now) result (lexicon.variable_of (tree_at forest.now i)) }
{
    match forest.atom(i) {
        Some(text) => {
            if is_variable(text) {
                Ok(text)
            } else {
                misplaced(forest, i)
            }
        }
        None => misplaced(forest, i),
    }
}
