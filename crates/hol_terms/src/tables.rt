//! What is kept of terms, the numbers going on from those of another store.
ghost use Rattle.std.specs.Prelude.{◌≡◌, ◌<◌, length, slice_get, MatchOption, IfOk, OnErr, Some};
ghost use Rattle.hol_terms.specs.TermStore.{mark_of, cut, FitsMark, IsBelow};
ghost use Rattle.hol_types.specs.Once.{Absent};
ghost use Rattle.hol_types.specs.TypeStore.{HasType, TreesApart, type_tree};
ghost use Rattle.hol_terms.specs.Term.{Typed, ty_of};
ghost use Rattle.hol_terms.specs.Reach.{reach_of};
ghost use Rattle.hol_terms.specs.TermStore.{IsTermStore, GrowsTo, TermsApart, joined, empty_store, term_tree, tree_of, HasTerm, HasParts, PartsBelow};

use crate::node::{Node, TermId};
use hol_types as types;
use hol_types::{Table, TypeId, TypeMark, TypeTables};
use std::alloc::{AllocError, Global};
use std::marker::Model;

/// Types and terms.
pub(crate) struct TermTables {
    pub(crate) types: TypeTables,
    nodes: Table<Node>,
    tys: Vec<TypeId>,
    reaches: Vec<u32>,
    /// How deep each term is. Nothing that is promised rests on it.
    heights: Vec<u32>,
    alloc: Global,
}

impl Drop for TermTables {
    fn drop(self) {
        let TermTables {
            types: _,
            nodes: _,
            tys: _,
            reaches: _,
            heights: _,
            alloc: _,
        } = self;
    }
}

impl Model for TermTables {
    ghost use Rattle.hol_terms.specs.TermStore.{TermStore};

    ghost Value = { TermStore };

    ghost view = { λ t. record { types = t.types; nodes = t.nodes; tys = t.tys.items; reaches = t.reaches.items } };
}

/// How much a store held: names, declared constructors and types, and terms.
#[derive(Clone, Copy, Debug, PartialEq, Eq)]
pub struct Mark {
    /// How much of names, constructors and types.
    pub types: TypeMark,
    /// How many terms.
    pub nodes: usize,
}

impl TermTables {
    /// No types and no terms.
    pub(crate) fn new(alloc: Global) -> TermTables
        ensures { result ≡ empty_store }
    {
        TermTables {
            types: TypeTables::new(alloc),
            nodes: Table::new(alloc),
            tys: Vec::new(alloc),
            reaches: Vec::new(alloc),
            heights: Vec::new(alloc),
            alloc,
        }
    }

    /// Where its memory comes from.
    pub(crate) fn allocator(&self) -> Global {
        self.alloc
    }
}

/// The node of a term.
pub(crate) fn node_in(base: &TermTables, own: &TermTables, t: TermId) -> Node
    requires { HasTerm (joined base.now own.now) t }
    ensures { slice_get (joined base.now own.now).nodes t ≡ Some result }
{
    *types::item_in(&base.nodes, &own.nodes, t.index())
}

/// The node of a term, and what it stands for.
pub(crate) fn known_node_in(base: &TermTables, own: &TermTables, t: TermId) -> Node
    requires lawful { IsTermStore (joined base.now own.now) }
    requires there { HasTerm (joined base.now own.now) t }
    ensures tree { term_tree (joined base.now own.now) t ≡ tree_of (joined base.now own.now) result }
    ensures parts { PartsBelow (joined base.now own.now) t result }
    ensures typed { Typed (term_tree (joined base.now own.now) t) }
    ensures apart { TermsApart (joined base.now own.now) }
{
    node_in(base, own, t)
}

fn ty_at(base: &TermTables, own: &TermTables, t: TermId) -> TypeId
    requires { t < length (joined base.now own.now).tys }
    ensures { slice_get (joined base.now own.now).tys t ≡ Some result }
{
    let at = t.index() as usize;
    let before = base.tys.len();
    if at < before {
        base.tys[at]
    } else {
        own.tys[at - before]
    }
}

/// The type of a term.
pub(crate) fn ty_in(base: &TermTables, own: &TermTables, t: TermId) -> TypeId
    requires lawful { IsTermStore (joined base.now own.now) }
    requires there { HasTerm (joined base.now own.now) t }
    ensures there { HasType (joined base.now own.now).types result }
    ensures ty { type_tree (joined base.now own.now).types result ≡ ty_of (term_tree (joined base.now own.now) t) }
    ensures typed { Typed (term_tree (joined base.now own.now) t) }
    ensures types_apart { TreesApart (joined base.now own.now).types }
{
    ty_at(base, own, t)
}

fn reach_at(base: &TermTables, own: &TermTables, t: TermId) -> u32
    requires { t < length (joined base.now own.now).reaches }
    ensures { slice_get (joined base.now own.now).reaches t ≡ Some result }
{
    let at = t.index() as usize;
    let before = base.reaches.len();
    if at < before {
        base.reaches[at]
    } else {
        own.reaches[at - before]
    }
}

/// How far the loose Bounds of a term reach.
pub(crate) fn reach_in(base: &TermTables, own: &TermTables, t: TermId) -> u32
    requires lawful { IsTermStore (joined base.now own.now) }
    requires there { HasTerm (joined base.now own.now) t }
    ensures { result ≡ reach_of (term_tree (joined base.now own.now) t) }
{
    reach_at(base, own, t)
}

/// The number of a term that is there.
pub(crate) fn found_in(
    base: &TermTables,
    own: &TermTables,
    node: &Node,
) -> Result<Option<TermId>, AllocError>
    ensures { IfOk result (λ found. MatchOption found (Absent (joined base.now own.now).nodes node.now) (λ t. slice_get (joined base.now own.now).nodes t ≡ Some node.now)) }
{
    match types::find_in(&base.nodes, &own.nodes, node) {
        Some(at) => {
            let at = types::number(at)?;
            Ok(Some(TermId::new(at)))
        }
        None => Ok(None),
    }
}

/// Adds a term that isn't there, with the number of its type and its reach.
pub(crate) fn add_in(
    base: &TermTables,
    own: &mut TermTables,
    node: Node,
    ty: TypeId,
    reach: u32,
) -> Result<TermId, AllocError>
    requires lawful { IsTermStore (joined base.now own.old) }
    requires parts { HasParts (joined base.now own.old) node }
    requires absent { Absent (joined base.now own.old).nodes node }
    requires typed { Typed (tree_of (joined base.now own.old) node) }
    requires there { HasType (joined base.now own.old).types ty }
    requires fits { type_tree (joined base.now own.old).types ty ≡ ty_of (tree_of (joined base.now own.old) node) }
    requires reaches { reach ≡ reach_of (tree_of (joined base.now own.old) node) }
    ensures node { IfOk result (λ t. slice_get (joined base.now own.new).nodes t ≡ Some node) }
    ensures lawful { IsTermStore (joined base.now own.new) }
    ensures grows { GrowsTo (joined base.now own.old) (joined base.now own.new) }
    ensures err { OnErr result (own.new ≡ own.old) }
{
    let height = node_height(base, own, &node);
    let at = types::number(base.nodes.len() + own.nodes.len())?;
    own.tys.reserve(1)?;
    own.reaches.reserve(1)?;
    own.heights.reserve(1)?;
    own.nodes.push(node)?;
    own.tys.push_reserved(ty);
    own.reaches.push_reserved(reach);
    own.heights.push_reserved(height);
    Ok(TermId::new(at))
}

/// How deep a term is, 1 where it has no parts. It is a hint: no contract speaks of it.
pub(crate) fn height_in(base: &TermTables, own: &TermTables, t: TermId) -> u32 {
    let at = t.index() as usize;
    let before = base.heights.len();
    let height = if at < before {
        base.heights.get(at)
    } else {
        own.heights.get(at - before)
    };
    match height {
        Some(height) => *height,
        None => 0,
    }
}

/// How deep a term is, given by its node.
fn node_height(base: &TermTables, own: &TermTables, node: &Node) -> u32 {
    match *node {
        Node::App(f, x) => {
            let most = height_in(base, own, f).max(height_in(base, own, x));
            most.saturating_add(1)
        }
        Node::Lam(_, b) => height_in(base, own, b).saturating_add(1),
        _ => 1,
    }
}

/// How much is held now.
pub(crate) fn mark_in(base: &TermTables, own: &TermTables) -> Mark
    requires { IsTermStore (joined base.now own.now) }
    ensures mark { result ≡ mark_of (joined base.now own.now) }
    ensures below { IsBelow (mark_of base.now) result }
    ensures fits { FitsMark result (joined base.now own.now) }
    ensures whole { cut result (joined base.now own.now) ≡ joined base.now own.now }
{
    Mark {
        types: types::mark_in(&base.types, &own.types),
        nodes: base.nodes.len() + own.nodes.len(),
    }
}

/// Takes away what came after the mark.
pub(crate) fn reset_in(base: &TermTables, own: &mut TermTables, mark: Mark)
    requires lawful { IsTermStore base.now }
    requires below { IsBelow (mark_of base.now) mark }
    ensures { joined base.now own.new ≡ cut mark (joined base.now own.old) }
{
    types::reset_in(&base.types, &mut own.types, mark.types);
    own.nodes.truncate(mark.nodes - base.nodes.len());
    own.tys.truncate(mark.nodes - base.tys.len());
    own.reaches.truncate(mark.nodes - base.reaches.len());
    own.heights.truncate(mark.nodes - base.nodes.len());
}
