//! What is kept of types, the numbers going on from those of another store.
ghost use Rattle.std.specs.Prelude.{◌≡◌, ℕ, ◌<◌, ◌≤◌, ◌↔◌, length, vec_len, vec_capacity, slice_get, IsTrue, IfOk, OnOk, OnErr, IfErr, None, if◌then◌else◌};
ghost use Rattle.hol_types.specs.Once.{IsAdded};
ghost use Rattle.hol_types.specs.TypeMark.{mark_of, cut, FitsMark};
ghost use Rattle.hol_types.specs.TypeStore.{IsTypeStore, Grows, empty_types, joined, arity_of, with_arity, HasName, HasType, HasTypeParts, PartsBelow, HasArity, NamesApart, TreesApart, text_of, type_tree, tree_of};
ghost use Rattle.hol_types.specs.KeepsTypes.{KeepsTypes};

use crate::layer::{item_in, number_in, number_of_bytes};
use crate::list::Bytes;
use crate::node::{NameId, TypeId, TypeNode};
use crate::table::Table;
use indexmap::IndexMap;
use std::alloc::{AllocError, Global};
use std::marker::Model;

/// Why a type wasn't taken.
#[derive(Debug, Drop, PartialEq, Eq)]
pub enum TypeFault {
    /// A constructor isn't declared with this number of arguments.
    Arity,
    Memory,
}

impl From<AllocError> for TypeFault {
    ghost use Rattle.hol_types.specs.declared.tables.TypeFault.TheVariants.{Memory};
    ghost use Rattle.std.specs.Prelude.{◌≡◌};

    ghost from_gives = { λ e f. f ≡ Memory };

    fn from(_: AllocError) -> TypeFault {
        TypeFault::Memory
    }
}

/// Names, declared constructors and types.
pub struct TypeTables {
    names: Table<Bytes>,
    arities: IndexMap<NameId, u32>,
    nodes: Table<TypeNode>,
    /// How deep each type is. Nothing that is promised rests on it.
    heights: Vec<u32>,
    alloc: Global,
}

impl Drop for TypeTables {
    fn drop(self) {
        let TypeTables {
            names: _,
            arities: _,
            nodes: _,
            heights: _,
            alloc: _,
        } = self;
    }
}

impl Model for TypeTables {
    ghost use Rattle.hol_types.specs.TypeStore.{TypeStore};

    ghost Value = { TypeStore };

    ghost view = { λ t. record { names = t.names; arities = t.arities.entries; nodes = t.nodes } };
}

impl TypeTables {
    pub fn new(alloc: Global) -> TypeTables
        ensures { result ≡ empty_types }
    {
        TypeTables {
            names: Table::new(alloc),
            arities: IndexMap::new(alloc),
            nodes: Table::new(alloc),
            heights: Vec::new(alloc),
            alloc,
        }
    }
}

/// The number of a name, which is added where it is new.
pub fn name_in(base: &TypeTables, own: &mut TypeTables, text: &[u8]) -> Result<NameId, AllocError>
    requires { IsTypeStore (joined base.now own.old) }
    ensures there { IfOk result (λ n. HasName (joined base.now own.new) n) }
    ensures text { IfOk result (λ n. text_of (joined base.now own.new) n ≡ text.now) }
    ensures apart { NamesApart (joined base.now own.new) }
    ensures added { OnOk result (IsAdded text.now (joined base.now own.old).names (joined base.now own.new).names) }
    ensures rest { own.new ≡ record own.old { names = own.new.names } }
    ensures lawful { IsTypeStore (joined base.now own.new) }
    ensures grows { Grows (joined base.now own.old) (joined base.now own.new) }
    ensures keeps { KeepsTypes (joined base.now own.old) (joined base.now own.new) }
    ensures err { OnErr result (own.new ≡ own.old) }
{
    let n = number_of_bytes(own.alloc, &base.names, &mut own.names, text)?;
    Ok(NameId::new(n))
}

/// The text of a name.
pub fn text_in<'a>(base: &'a TypeTables, own: &'a TypeTables, n: NameId) -> &'a [u8]
    requires { HasName (joined base.now own.now) n }
    ensures { text_of (joined base.now own.now) n ≡ result.now }
{
    item_in(&base.names, &own.names, n.index()).as_slice()
}

/// Whether a constructor has the arguments that it is declared with.
fn has_arity(base: &TypeTables, own: &TypeTables, node: &TypeNode) -> bool
    ensures { IsTrue result ↔ HasArity (joined base.now own.now) node.now }
{
    match node {
        TypeNode::Cons(n, args) => match arity_in(base, own, *n) {
            Some(arity) => arity as usize == args.len(),
            None => false,
        },
        _ => true,
    }
}

/// The number of arguments with which a constructor is declared.
pub fn arity_in(base: &TypeTables, own: &TypeTables, n: NameId) -> Option<u32>
    ensures { result ≡ arity_of (joined base.now own.now) n }
{
    match base.arities.get(&n) {
        Some(arity) => Some(*arity),
        None => own.arities.get(&n).copied(),
    }
}

/// Declares a constructor that isn't declared.
fn add_arity(own: &mut TypeTables, n: NameId, arity: u32) -> Result<(), AllocError>
    requires { arity_of own.old n ≡ None }
    ensures ok { OnOk result (own.new ≡ with_arity own.old n arity) }
    ensures err { OnErr result (own.new ≡ own.old) }
{
    own.arities.insert(n, arity)?;
    Ok(())
}

/// Declares a constructor, unless it is declared.
pub fn declare_in(
    base: &TypeTables,
    own: &mut TypeTables,
    n: NameId,
    arity: u32,
) -> Result<bool, AllocError>
    requires { IsTypeStore (joined base.now own.old) }
    ensures fresh { IfOk result (λ fresh. IsTrue fresh ↔ (arity_of (joined base.now own.old) n ≡ None)) }
    ensures stored { IfOk result (λ fresh. joined base.now own.new ≡ (if fresh then with_arity (joined base.now own.old) n arity else joined base.now own.old)) }
    ensures arity { IfOk result (λ fresh. IsTrue fresh → arity_of (joined base.now own.new) n ≡ Some arity) }
    ensures others { (m : ℕ) → (m ≡ n → ⊥) → arity_of (joined base.now own.new) m ≡ arity_of (joined base.now own.old) m }
    ensures lawful { IsTypeStore (joined base.now own.new) }
    ensures grows { Grows (joined base.now own.old) (joined base.now own.new) }
    ensures keeps { KeepsTypes (joined base.now own.old) (joined base.now own.new) }
    ensures err { OnErr result (own.new ≡ own.old) }
{
    if arity_in(base, own, n).is_some() {
        return Ok(false);
    }
    add_arity(own, n, arity)?;
    Ok(true)
}

/// The number of a type, which is added where it is new.
pub fn intern_in(
    base: &TypeTables,
    own: &mut TypeTables,
    node: TypeNode,
) -> Result<TypeId, TypeFault>
    requires lawful { IsTypeStore (joined base.now own.old) }
    requires parts { HasTypeParts (joined base.now own.old) node }
    ensures node { IfOk result (λ t. slice_get (joined base.now own.new).nodes t ≡ Some node) }
    ensures there { IfOk result (λ t. HasType (joined base.now own.new) t) }
    ensures tree { IfOk result (λ t. type_tree (joined base.now own.new) t ≡ tree_of (joined base.now own.old) node) }
    ensures apart { TreesApart (joined base.now own.new) }
    ensures added { OnOk result (IsAdded node (joined base.now own.old).nodes (joined base.now own.new).nodes) }
    ensures rest { own.new ≡ record own.old { nodes = own.new.nodes } }
    ensures arity { IfErr result (λ e. e ≡ TypeFault.Arity → HasArity (joined base.now own.old) node → ⊥) }
    ensures has_arity { OnOk result (HasArity (joined base.now own.old) node) }
    ensures lawful { IsTypeStore (joined base.now own.new) }
    ensures grows { Grows (joined base.now own.old) (joined base.now own.new) }
    ensures keeps { KeepsTypes (joined base.now own.old) (joined base.now own.new) }
    ensures err { OnErr result (own.new ≡ own.old) }
{
    if !has_arity(base, own, &node) {
        return Err(TypeFault::Arity);
    }
    let height = node_height(base, own, &node);
    own.heights.reserve(1)?;
    let t = number_in(&base.nodes, &mut own.nodes, node)?;
    note_height(&mut own.heights, own.nodes.len(), height);
    Ok(TypeId::new(t))
}

/// How deep a type is, 1 where it has no parts. It is a hint: no contract speaks of it.
pub(crate) fn height_in(base: &TypeTables, own: &TypeTables, t: TypeId) -> u32 {
    let at = t.index() as usize;
    let before = base.heights.len();
    let height = if at < before {
        base.heights.get(at)
    } else {
        own.heights.get(at - before)
    };
    match height {
        Some(height) => *height,
        None => 0,
    }
}

/// How deep the deepest of the types is.
fn most_height(base: &TypeTables, own: &TypeTables, ts: &[TypeId]) -> u32 {
    let mut most = 0;
    for t in ts {
        most = height_in(base, own, *t).max(most);
    }
    most
}

/// How deep a type is, given by its node.
fn node_height(base: &TypeTables, own: &TypeTables, node: &TypeNode) -> u32 {
    match node {
        TypeNode::Fun(a, b) => {
            let most = height_in(base, own, *a).max(height_in(base, own, *b));
            most.saturating_add(1)
        }
        TypeNode::Cons(_, ts) => most_height(base, own, ts.as_slice()).saturating_add(1),
        _ => 1,
    }
}

/// Notes how deep the last of so many types is, where that isn't known.
fn note_height(heights: &mut Vec<u32>, types: usize, height: u32)
    requires { vec_len heights.old < vec_capacity heights.old }
{
    if heights.len() < types {
        heights.push_reserved(height);
    }
}

/// The node of a type.
pub fn node_in<'a>(base: &'a TypeTables, own: &'a TypeTables, t: TypeId) -> &'a TypeNode
    requires { HasType (joined base.now own.now) t }
    ensures { slice_get (joined base.now own.now).nodes t ≡ Some result.now }
{
    item_in(&base.nodes, &own.nodes, t.index())
}

/// The node of a type, and what it stands for.
pub fn known_node_in<'a>(base: &'a TypeTables, own: &'a TypeTables, t: TypeId) -> &'a TypeNode
    requires lawful { IsTypeStore (joined base.now own.now) }
    requires there { HasType (joined base.now own.now) t }
    ensures tree { type_tree (joined base.now own.now) t ≡ tree_of (joined base.now own.now) result.now }
    ensures parts { PartsBelow (joined base.now own.now) t result.now }
    ensures arity { HasArity (joined base.now own.now) result.now }
    ensures apart { TreesApart (joined base.now own.now) }
{
    node_in(base, own, t)
}

/// How much is held.
#[derive(Clone, Copy, Debug, PartialEq, Eq)]
pub struct TypeMark {
    pub names: usize,
    pub arities: usize,
    pub nodes: usize,
}

/// How much is held now.
pub fn mark_in(base: &TypeTables, own: &TypeTables) -> TypeMark
    ensures mark { result ≡ mark_of (joined base.now own.now) }
    ensures fits { FitsMark result (joined base.now own.now) }
    ensures whole { cut result (joined base.now own.now) ≡ joined base.now own.now }
{
    TypeMark {
        names: base.names.len() + own.names.len(),
        arities: base.arities.len() + own.arities.len(),
        nodes: base.nodes.len() + own.nodes.len(),
    }
}

/// Takes away what came after the mark.
pub fn reset_in(base: &TypeTables, own: &mut TypeTables, mark: TypeMark)
    requires names { length base.now.names ≤ mark.names }
    requires arities { length base.now.arities ≤ mark.arities }
    requires nodes { length base.now.nodes ≤ mark.nodes }
    ensures { joined base.now own.new ≡ cut mark (joined base.now own.old) }
{
    own.names.truncate(mark.names - base.names.len());
    own.arities.truncate(mark.arities - base.arities.len());
    let kept = mark.nodes - base.nodes.len();
    own.nodes.truncate(kept);
    own.heights.truncate(kept);
}
