//! Types.
ghost use Rattle.std.specs.Prelude.{◌≡◌, ◌<◌, ◌≤◌, length, bytes_eq, IfOk, Ok};
ghost use Rattle.std.specs.Map.{lookup};
ghost use Rattle.hol_types.specs.Ty.{VarTy};
ghost use Rattle.hol_types.specs.TypeStore.{HasType, type_tree};
ghost use Rattle.hol_types.specs.TypeStore as store;
ghost use Rattle.hol_terms.specs.TermStore.{Keeps};
ghost use Rattle.sexp.specs.Tree.{AtomTree, count};
ghost use Rattle.sexp.specs.Forest.{tree_at, trees_at, HasTree, IsRun};
ghost use Rattle.goal_text.specs.Read.{Gives};
ghost use Rattle.goal_text.specs.Scope.{AreConstructors, AreTypes, IsTypeHead, type_form_at, types_in};
ghost use Rattle.goal_text.specs.Types as types;

use crate::fault::{GoalFailure, GoalKind, refuse};
use crate::lexicon::{is_name, is_type_variable};
use crate::made::type_of;
use crate::names::Names;
use crate::scope::{Constructor, constructor_of};
use crate::tree::{count_at, misplaced, misplaced_atom, parts_at};
use hol_terms::{Base, Terms};
use hol_types::{List, TypeId, TypeNode};
use sexp::Forest;

/// What a list of types is.
#[derive(Clone, Copy, Debug)]
pub enum TypeHead {
    /// `(-> T T ..)`
    Arrows,
    /// `(s T ..)`
    Constructed(Constructor),
}

/// A constructor that stands alone.
fn alone(
    base: &mut Base,
    constructors: &Names<Constructor>,
    at: u32,
    text: &[u8],
) -> Result<TypeId, GoalFailure>
    requires { AreConstructors base.old constructors.now }
    ensures read { Gives (type_tree base.new.types) result (types.alone (lookup (bytes_eq text.now) (types_in constructors.now)) at text.now) }
    ensures there { IfOk result (HasType base.new.types) }
    ensures keeps { Keeps base.old base.new }
{
    match constructor_of(base, constructors, text) {
        Some(c) => {
            if c.arity == 0 {
                let none = List::with_capacity(base.allocator(), 0)?;
                type_of(base, TypeNode::Cons(c.name, none))
            } else {
                refuse(at, GoalKind::Syntax)
            }
        }
        None => refuse(at, GoalKind::UnknownName),
    }
}

/// A type variable.
#[tactic(auto, using(hol_terms::proofs::KeepsLemmas::keeps_trans))]
fn variable(base: &mut Base, text: &[u8]) -> Result<TypeId, GoalFailure>
    ensures read { Gives (type_tree base.new.types) result (Ok (VarTy text.now)) }
    ensures there { IfOk result (HasType base.new.types) }
    ensures keeps { Keeps base.old base.new }
{
    let name = base.name(text)?;
    let t = type_of(base, TypeNode::Var(name))?;
    Ok(t)
}

/// Bool, Int, 'a or s.
#[tactic(auto, unfolding(crate::specs::Types::type_atom))]
fn atom(
    base: &mut Base,
    constructors: &Names<Constructor>,
    at: u32,
    text: &[u8],
) -> Result<TypeId, GoalFailure>
    requires { AreConstructors base.old constructors.now }
    ensures read { Gives (type_tree base.new.types) result (types.type_atom (types_in constructors.now) at text.now) }
    ensures there { IfOk result (HasType base.new.types) }
    ensures keeps { Keeps base.old base.new }
{
    if text == b"Bool".as_slice() {
        type_of(base, TypeNode::Bool)
    } else if text == b"Int".as_slice() {
        type_of(base, TypeNode::Int)
    } else if is_type_variable(text) {
        variable(base, text)
    } else if is_name(text) {
        alone(base, constructors, at, text)
    } else {
        misplaced_atom(at, text)
    }
}

/// What a list with an atom at its head is, with so many types behind it.
fn headed(
    base: &Base,
    constructors: &Names<Constructor>,
    at: u32,
    head: u32,
    text: &[u8],
    n: u32,
) -> Result<TypeHead, GoalFailure>
    requires { AreConstructors base.now constructors.now }
    ensures read { Gives (type_form_at base.now) result (types.type_headed (types_in constructors.now) at (AtomTree head text.now) n) }
    ensures head { IfOk result (IsTypeHead base.now n) }
{
    if text == b"->".as_slice() {
        return if 1 < n {
            Ok(TypeHead::Arrows)
        } else {
            refuse(at, GoalKind::Syntax)
        };
    }
    if !is_name(text) {
        return misplaced_atom(head, text);
    }
    match constructor_of(base, constructors, text) {
        Some(c) => {
            if c.arity == n {
                Ok(TypeHead::Constructed(c))
            } else {
                refuse(at, GoalKind::Syntax)
            }
        }
        None => refuse(head, GoalKind::UnknownName),
    }
}

/// What a list is, whose head stands at `first`, with so many types behind it.
fn head_at(
    base: &Base,
    constructors: &Names<Constructor>,
    forest: &Forest,
    at: u32,
    first: u32,
    n: u32,
) -> Result<TypeHead, GoalFailure>
    requires constructors { AreConstructors base.now constructors.now }
    requires tree { HasTree forest.now first }
    ensures read { Gives (type_form_at base.now) result (types.type_headed (types_in constructors.now) at (tree_at forest.now first) n) }
    ensures head { IfOk result (IsTypeHead base.now n) }
{
    match forest.atom(first) {
        Some(text) => headed(base, constructors, at, forest.start(first), text, n),
        None => misplaced(forest, first),
    }
}

/// What a list of types is, with the number of the tree behind its head.
#[tactic(auto, unfolding(crate::specs::Types::type_form, crate::specs::Types::types_behind))]
fn enter(
    base: &Base,
    constructors: &Names<Constructor>,
    forest: &Forest,
    at: u32,
    first: u32,
    end: u32,
) -> Result<(TypeHead, u32), GoalFailure>
    requires constructors { AreConstructors base.now constructors.now }
    requires run { IsRun forest.now first end }
    ensures form { Gives (λ r. type_form_at base.now r.0) result (types.type_form (types_in constructors.now) at (trees_at forest.now first end)) }
    ensures head { IfOk result (λ r. IsTypeHead base.now (count (trees_at forest.now r.1 end)) r.0) }
    ensures behind { IfOk result (λ r. types.types_behind (types_in constructors.now) (trees_at forest.now first end) ≡ types.types_of (types_in constructors.now) (trees_at forest.now r.1 end)) }
    ensures run { IfOk result (λ r. IsRun forest.now r.1 end) }
    ensures from { IfOk result (λ r. first ≤ r.1) }
{
    let Some(second) = forest.next(first, end) else {
        return refuse(at, GoalKind::Syntax);
    };
    let n = count_at(forest, second, end);
    if n == 0 {
        return refuse(at, GoalKind::Syntax);
    }
    let head = head_at(base, constructors, forest, at, first, n)?;
    Ok((head, second))
}

/// The functions from each type to what follows, nested to the right.
#[tactic(auto, unfolding(crate::specs::Types::type_built))]
fn arrows(base: &mut Base, parts: Vec<TypeId>) -> Result<TypeId, GoalFailure>
    requires { AreTypes base.old parts.items }
    ensures read { Gives (type_tree base.new.types) result (Ok (types.type_built types.Arrows (store.trees_at base.old.types parts.items))) }
    ensures there { IfOk result (HasType base.new.types) }
    ensures keeps { Keeps base.old base.new }
{
    let mut sources = parts;
    let Some(last) = sources.pop() else {
        return type_of(base, TypeNode::Bool);
    };
    let mut t = last;
    while let Some(source) = sources.pop() {
        t = type_of(base, TypeNode::Fun(source, t))?;
    }
    Ok(t)
}

/// The type of a list with these types behind its head.
#[tactic(auto, unfolding(crate::specs::Types::type_built))]
fn leave(base: &mut Base, head: TypeHead, parts: Vec<TypeId>) -> Result<TypeId, GoalFailure>
    requires parts { AreTypes base.old parts.items }
    requires head { IsTypeHead base.old (length parts.items) head }
    ensures read { Gives (type_tree base.new.types) result (Ok (types.type_built (type_form_at base.old head) (store.trees_at base.old.types parts.items))) }
    ensures there { IfOk result (HasType base.new.types) }
    ensures keeps { Keeps base.old base.new }
{
    match head {
        TypeHead::Arrows => arrows(base, parts),
        TypeHead::Constructed(c) => type_of(base, TypeNode::Cons(c.name, List::new(parts))),
    }
}

/// The type that a tree is read as.
#[cycle(types)]
#[tactic(auto, unfolding(crate::specs::Types::type_of), using(hol_terms::proofs::KeepsLemmas::keeps_trans))]
pub fn type_at(
    base: &mut Base,
    constructors: &Names<Constructor>,
    forest: &Forest,
    i: u32,
) -> Result<TypeId, GoalFailure>
    requires constructors { AreConstructors base.old constructors.now }
    requires tree { HasTree forest.now i }
    ensures read { Gives (type_tree base.new.types) result (types.type_of (types_in constructors.now) (tree_at forest.now i)) }
    ensures there { IfOk result (HasType base.new.types) }
    ensures keeps { Keeps base.old base.new }
{
    let at = forest.start(i);
    if let Some(text) = forest.atom(i) {
        return atom(base, constructors, at, text);
    }
    let Some((first, end)) = parts_at(forest, i) else {
        return refuse(at, GoalKind::Syntax);
    };
    let (head, second) = enter(base, constructors, forest, at, first, end)?;
    let parts = types_at(base, constructors, forest, second, end)?;
    let t = leave(base, head, parts)?;
    Ok(t)
}

/// The types that the trees of a run are read as.
#[cycle(types)]
#[tactic(auto, using(hol_terms::proofs::KeepsLemmas::keeps_trans, crate::proofs::ScopeLemmas::constructors_kept))]
fn types_at(
    base: &mut Base,
    constructors: &Names<Constructor>,
    forest: &Forest,
    first: u32,
    end: u32,
) -> Result<Vec<TypeId>, GoalFailure>
    requires constructors { AreConstructors base.old constructors.now }
    requires run { IsRun forest.now first end }
    ensures read { Gives (λ ts. store.trees_at base.new.types ts.items) result (types.types_of (types_in constructors.now) (trees_at forest.now first end)) }
    ensures count { IfOk result (λ ts. length ts.items ≡ count (trees_at forest.now first end)) }
    ensures there { IfOk result (λ ts. AreTypes base.new ts.items) }
    ensures keeps { Keeps base.old base.new }
{
    let mut types = Vec::new(base.allocator());
    let mut i = first;
    while let Some(after) = forest.next(i, end) {
        let t = type_at(base, constructors, forest, i)?;
        types.push(t)?;
        i = after;
    }
    Ok(types)
}
