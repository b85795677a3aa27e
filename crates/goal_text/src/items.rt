//! Items: declarations, facts and the goal.
ghost use Rattle.std.specs.Prelude.{◌≡◌, ◌<◌, None, bytes_eq, IfOk, OnOk, Ok};
ghost use Rattle.std.specs.Map.{lookup};
ghost use Rattle.hol_types.specs.TypeStore.{HasType, type_tree};
ghost use Rattle.hol_terms.specs.TermStore.{term_tree};
ghost use Rattle.sexp.specs.Forest.{tree_at, trees_at, HasTree, IsRun};
ghost use Rattle.goal_text.specs.Items as forms;
ghost use Rattle.goal_text.specs.Items.{with_type};
ghost use Rattle.goal_text.specs.ItemsIn.{AreItems, items_in, with_constant};
ghost use Rattle.goal_text.specs.Read.{Gives};
ghost use Rattle.goal_text.specs.Sentences.{HasSentence};

use crate::fault::{GoalFailure, GoalKind, refuse};
use crate::lexicon::{is_number, value};
use crate::matching::is_ground;
use crate::operations::is_bool;
use crate::problem::Declared;
use crate::scope::{Constant, Constructor, Scope};
use crate::term::term_at;
use crate::tree::{misplaced, name_at, one_at, parts_at, two_at};
use crate::types::type_at;
use hol_terms::{Base, TermId, Terms};
use hol_types::TypeId;
use sexp::Forest;

/// What the items so far say.
#[derive(Drop)]
pub struct Items {
    pub base: Base,
    pub scope: Scope,
    pub consts: Vec<Declared>,
    pub facts: Vec<TermId>,
    pub goal: Option<TermId>,
}

/// A number from 0 to 8.
#[tactic(auto, unfolding(crate::specs::Items::arity_of))]
fn arity_at(forest: &Forest, i: u32) -> Result<u32, GoalFailure>
    requires { HasTree forest.now i }
    ensures { Gives (λ n. n) result (forms.arity_of (tree_at forest.now i)) }
{
    let Some(text) = forest.atom(i) else {
        return misplaced(forest, i);
    };
    if !is_number(text) {
        return misplaced(forest, i);
    }
    match value(text) {
        Some(n) => {
            if n < 9 {
                Ok(n as u32)
            } else {
                misplaced(forest, i)
            }
        }
        None => misplaced(forest, i),
    }
}

/// Declares a type constructor whose name isn't declared.
#[tactic(auto, using(hol_terms::proofs::KeepsLemmas::keeps_trans))]
fn declare_type(items: &mut Items, name: &[u8], arity: u32) -> Result<(), GoalFailure>
    requires items { AreItems items.old }
    requires fresh { lookup (bytes_eq name.now) (items_in items.old).types ≡ None }
    ensures read { Gives (λ _. items_in items.new) result (Ok (with_type (items_in items.old) name.now arity)) }
    ensures items { OnOk result (AreItems items.new) }
{
    let number = items.base.name(name)?;
    // Nothing else declares constructors in this store.
    if !items.base.declare(number, arity)? {
        return Err(GoalFailure::Memory);
    }
    let own = Vec::from_slice(items.base.allocator(), name)?;
    items.scope.types.declare(
        own,
        Constructor {
            name: number,
            arity,
        },
    )?;
    Ok(())
}

/// `(type s n)`
#[tactic(auto, unfolding(crate::specs::Items::type_item))]
fn type_item(
    items: &mut Items,
    forest: &Forest,
    at: u32,
    first: u32,
    end: u32,
) -> Result<(), GoalFailure>
    requires items { AreItems items.old }
    requires run { IsRun forest.now first end }
    ensures read { Gives (λ _. items_in items.new) result (forms.type_item (items_in items.old) at (trees_at forest.now first end)) }
    ensures items { OnOk result (AreItems items.new) }
{
    let (first, second) = two_at(forest, at, first, end)?;
    let name = name_at(forest, first)?;
    if items.scope.types.find(name).is_some() {
        return refuse(at, GoalKind::DeclaredTwice);
    }
    let arity = arity_at(forest, second)?;
    declare_type(items, name, arity)
}

/// Declares a constant whose name isn't declared.
#[tactic(auto, using(hol_terms::proofs::KeepsLemmas::keeps_trans))]
fn declare_constant(items: &mut Items, name: &[u8], ty: TypeId) -> Result<(), GoalFailure>
    requires items { AreItems items.old }
    requires fresh { lookup (bytes_eq name.now) (items_in items.old).consts ≡ None }
    requires ty { HasType items.old.base.types ty }
    ensures read { Gives (λ _. items_in items.new) result (Ok (with_constant (items_in items.old) name.now (type_tree items.old.base.types ty))) }
    ensures items { OnOk result (AreItems items.new) }
{
    let number = items.base.name(name)?;
    let own = Vec::from_slice(items.base.allocator(), name)?;
    let monomorphic = is_ground(&items.base, ty);
    items.scope.consts.declare(
        own,
        Constant {
            name: number,
            ty,
            monomorphic,
        },
    )?;
    items.consts.push(Declared { name: number, ty })?;
    Ok(())
}

/// `(const c T)`
#[tactic(auto, unfolding(crate::specs::Items::const_item))]
fn const_item(
    items: &mut Items,
    forest: &Forest,
    at: u32,
    first: u32,
    end: u32,
) -> Result<(), GoalFailure>
    requires items { AreItems items.old }
    requires run { IsRun forest.now first end }
    ensures read { Gives (λ _. items_in items.new) result (forms.const_item (items_in items.old) at (trees_at forest.now first end)) }
    ensures items { OnOk result (AreItems items.new) }
{
    let (first, second) = two_at(forest, at, first, end)?;
    let name = name_at(forest, first)?;
    if items.scope.consts.find(name).is_some() {
        return refuse(at, GoalKind::DeclaredTwice);
    }
    let ty = type_at(&mut items.base, &items.scope.types, forest, second)?;
    declare_constant(items, name, ty)
}

/// A term of type Bool.
#[tactic(auto, unfolding(crate::specs::Items::formula_of))]
fn formula_at(items: &mut Items, forest: &Forest, at: u32, i: u32) -> Result<TermId, GoalFailure>
    requires items { AreItems items.old }
    requires tree { HasTree forest.now i }
    ensures read { Gives (term_tree items.new.base) result (forms.formula_of (items_in items.old) at (tree_at forest.now i)) }
    ensures sentence { IfOk result (HasSentence items.new.base) }
    ensures items { OnOk result (AreItems items.new) }
    ensures same { OnOk result (items_in items.new ≡ items_in items.old) }
{
    let t = term_at(&mut items.base, &mut items.scope, forest, i)?;
    // It is typed, as each term of a store is.
    let _ty = items.base.ty(t);
    if is_bool(&items.base, t) {
        Ok(t)
    } else {
        refuse(at, GoalKind::NotBool)
    }
}

/// `(fact F)`
#[tactic(auto, unfolding(crate::specs::Items::fact_item))]
fn fact_item(
    items: &mut Items,
    forest: &Forest,
    at: u32,
    first: u32,
    end: u32,
) -> Result<(), GoalFailure>
    requires items { AreItems items.old }
    requires run { IsRun forest.now first end }
    ensures read { Gives (λ _. items_in items.new) result (forms.fact_item (items_in items.old) at (trees_at forest.now first end)) }
    ensures items { OnOk result (AreItems items.new) }
{
    let i = one_at(forest, at, first, end)?;
    let t = formula_at(items, forest, at, i)?;
    items.facts.push(t)?;
    Ok(())
}

/// `(goal F)`, the only one
#[tactic(auto, unfolding(crate::specs::Items::goal_item))]
fn goal_item(
    items: &mut Items,
    forest: &Forest,
    at: u32,
    first: u32,
    end: u32,
) -> Result<(), GoalFailure>
    requires items { AreItems items.old }
    requires run { IsRun forest.now first end }
    ensures read { Gives (λ _. items_in items.new) result (forms.goal_item (items_in items.old) at (trees_at forest.now first end)) }
    ensures items { OnOk result (AreItems items.new) }
{
    let i = one_at(forest, at, first, end)?;
    if items.goal.is_some() {
        return refuse(at, GoalKind::TwoGoals);
    }
    let t = formula_at(items, forest, at, i)?;
    items.goal = Some(t);
    Ok(())
}

/// A list by its head.
fn item_by(
    items: &mut Items,
    forest: &Forest,
    at: u32,
    head: u32,
    first: u32,
    end: u32,
) -> Result<(), GoalFailure>
    requires items { AreItems items.old }
    requires head { HasTree forest.now head }
    requires run { IsRun forest.now first end }
    ensures read { Gives (λ _. items_in items.new) result (forms.item_by (items_in items.old) at (tree_at forest.now head) (trees_at forest.now first end)) }
    ensures items { OnOk result (AreItems items.new) }
{
    let Some(word) = forest.atom(head) else {
        return refuse(at, GoalKind::Syntax);
    };
    if word == b"type".as_slice() {
        type_item(items, forest, at, first, end)
    } else if word == b"const".as_slice() {
        const_item(items, forest, at, first, end)
    } else if word == b"fact".as_slice() {
        fact_item(items, forest, at, first, end)
    } else if word == b"goal".as_slice() {
        goal_item(items, forest, at, first, end)
    } else {
        refuse(at, GoalKind::Syntax)
    }
}

/// One item more.
#[tactic(auto, unfolding(crate::specs::Items::item_of))]
fn item_at(items: &mut Items, forest: &Forest, i: u32) -> Result<(), GoalFailure>
    requires items { AreItems items.old }
    requires tree { HasTree forest.now i }
    ensures read { Gives (λ _. items_in items.new) result (forms.item_of (items_in items.old) (tree_at forest.now i)) }
    ensures items { OnOk result (AreItems items.new) }
{
    let Some((first, end)) = parts_at(forest, i) else {
        return misplaced(forest, i);
    };
    let at = forest.start(i);
    match forest.next(first, end) {
        Some(second) => item_by(items, forest, at, first, second, end),
        None => refuse(at, GoalKind::Syntax),
    }
}

/// The items in the order of the text.
pub fn items_at(items: &mut Items, forest: &Forest, first: u32, end: u32) -> Result<(), GoalFailure>
    requires items { AreItems items.old }
    requires run { IsRun forest.now first end }
    ensures read { Gives (λ _. items_in items.new) result (forms.items_of (items_in items.old) (trees_at forest.now first end)) }
    ensures items { OnOk result (AreItems items.new) }
{
    let mut i = first;
    while let Some(after) = forest.next(i, end) {
        item_at(items, forest, i)?;
        i = after;
    }
    Ok(())
}
