//! Names and types in the tables of terms.
ghost use Rattle.std.specs.Prelude.{◌≡◌, ℕ, ◌↔◌, IsTrue, IfOk, IfSome, OnOk, OnErr, IfErr, Some, None, false};
ghost use Rattle.hol_types.specs.TypeStore.{HasName, HasType, HasTypeParts, HasArity, NamesApart, TreesApart, arity_of, text_of, type_tree};
ghost use Rattle.hol_types.specs.TypeStore as types;
ghost use Rattle.hol_types.specs.TypeSubst.{HasSubst, NamesOnce, subst_tree, instance_of};
ghost use Rattle.hol_types.specs.Instance.{AllTypeInstances};
ghost use Rattle.hol_types.specs.TypeMatch.{Matches, IsLeast, NeverIs};
ghost use Rattle.hol_terms.specs.TermStore.{IsTermStore, GrowsTo, Keeps, joined};

use crate::tables::TermTables;
use hol_types as types;
use hol_types::{NameId, Subst, TypeFault, TypeId, TypeInstances, TypeNode};
use std::alloc::AllocError;

/// The number of a name, which may be new.
pub(crate) fn name_in(
    base: &TermTables,
    own: &mut TermTables,
    text: &[u8],
) -> Result<NameId, AllocError>
    requires { IsTermStore (joined base.now own.old) }
    ensures there { IfOk result (λ n. HasName (joined base.now own.new).types n) }
    ensures text { IfOk result (λ n. text_of (joined base.now own.new).types n ≡ text.now) }
    ensures apart { NamesApart (joined base.now own.new).types }
    ensures lawful { IsTermStore (joined base.now own.new) }
    ensures keeps { Keeps (joined base.now own.old) (joined base.now own.new) }
    ensures err { OnErr result (own.new ≡ own.old) }
{
    types::name_in(&base.types, &mut own.types, text)
}

/// The text of a name.
pub(crate) fn text_in<'a>(base: &'a TermTables, own: &'a TermTables, n: NameId) -> &'a [u8]
    requires lawful { IsTermStore (joined base.now own.now) }
    requires there { HasName (joined base.now own.now).types n }
    ensures text { text_of (joined base.now own.now).types n ≡ result.now }
    ensures apart { NamesApart (joined base.now own.now).types }
{
    types::text_in(&base.types, &own.types, n)
}

/// Declares a constructor, unless it is declared.
pub(crate) fn declare_in(
    base: &TermTables,
    own: &mut TermTables,
    n: NameId,
    arity: u32,
) -> Result<bool, AllocError>
    requires { IsTermStore (joined base.now own.old) }
    ensures fresh { IfOk result (λ fresh. IsTrue fresh ↔ (arity_of (joined base.now own.old).types n ≡ None)) }
    ensures arity { IfOk result (λ fresh. IsTrue fresh → arity_of (joined base.now own.new).types n ≡ Some arity) }
    ensures others { (m : ℕ) → (m ≡ n → ⊥) → arity_of (joined base.now own.new).types m ≡ arity_of (joined base.now own.old).types m }
    ensures declared { IfOk result (λ fresh. fresh ≡ false → joined base.now own.new ≡ joined base.now own.old) }
    ensures lawful { IsTermStore (joined base.now own.new) }
    ensures keeps { Keeps (joined base.now own.old) (joined base.now own.new) }
    ensures err { OnErr result (own.new ≡ own.old) }
{
    types::declare_in(&base.types, &mut own.types, n, arity)
}

/// The number of a type, which may be new.
pub(crate) fn intern_type_in(
    base: &TermTables,
    own: &mut TermTables,
    node: TypeNode,
) -> Result<TypeId, TypeFault>
    requires lawful { IsTermStore (joined base.now own.old) }
    requires parts { HasTypeParts (joined base.now own.old).types node }
    ensures there { IfOk result (λ t. HasType (joined base.now own.new).types t) }
    ensures tree { IfOk result (λ t. type_tree (joined base.now own.new).types t ≡ types.tree_of (joined base.now own.old).types node) }
    ensures has_arity { OnOk result (HasArity (joined base.now own.old).types node) }
    ensures arity { IfErr result (λ e. e ≡ TypeFault.Arity → HasArity (joined base.now own.old).types node → ⊥) }
    ensures apart { TreesApart (joined base.now own.new).types }
    ensures lawful { IsTermStore (joined base.now own.new) }
    ensures grows { GrowsTo (joined base.now own.old) (joined base.now own.new) }
    ensures keeps { Keeps (joined base.now own.old) (joined base.now own.new) }
    ensures nodes { own.new.nodes ≡ own.old.nodes }
    ensures err { OnErr result (own.new ≡ own.old) }
{
    types::intern_in(&base.types, &mut own.types, node)
}

/// The node of a type, and what it stands for.
pub(crate) fn type_node_in<'a>(base: &'a TermTables, own: &'a TermTables, t: TypeId) -> &'a TypeNode
    requires lawful { IsTermStore (joined base.now own.now) }
    requires there { HasType (joined base.now own.now).types t }
    ensures tree { type_tree (joined base.now own.now).types t ≡ types.tree_of (joined base.now own.now).types result.now }
    ensures parts { types.PartsBelow (joined base.now own.now).types t result.now }
    ensures arity { HasArity (joined base.now own.now).types result.now }
    ensures apart { TreesApart (joined base.now own.now).types }
{
    types::node_in(&base.types, &own.types, t)
}

/// The type with the given types for its variables, where the memo has what was made of types before.
pub(crate) fn instance_part_in(
    base: &TermTables,
    own: &mut TermTables,
    memo: &mut TypeInstances,
    t: TypeId,
    s: &Subst,
) -> Result<TypeId, AllocError>
    requires lawful { IsTermStore (joined base.now own.old) }
    requires there { HasType (joined base.now own.old).types t }
    requires subst { HasSubst (joined base.now own.old).types s.now }
    requires memo { AllTypeInstances (joined base.now own.old).types s.now memo.old }
    ensures there { IfOk result (λ r. HasType (joined base.now own.new).types r) }
    ensures tree { IfOk result (λ r. type_tree (joined base.now own.new).types r ≡ instance_of (subst_tree (joined base.now own.old).types s.now) (type_tree (joined base.now own.old).types t)) }
    ensures lawful { IsTermStore (joined base.now own.new) }
    ensures keeps { Keeps (joined base.now own.old) (joined base.now own.new) }
    ensures memo { OnOk result (AllTypeInstances (joined base.now own.new).types s.now memo.new) }
{
    let alloc = own.allocator();
    types::instance_part(&base.types, &mut own.types, alloc, memo, t, s.as_slice())
}

/// The least types for the type variables of a pattern that go on from the given ones and make it the type.
pub(crate) fn match_type_in(
    base: &TermTables,
    own: &TermTables,
    pattern: TypeId,
    t: TypeId,
    s: &Subst,
) -> Result<Option<Subst>, AllocError>
    requires lawful { IsTermStore (joined base.now own.now) }
    requires pattern { HasType (joined base.now own.now).types pattern }
    requires there { HasType (joined base.now own.now).types t }
    requires subst { HasSubst (joined base.now own.now).types s.now }
    ensures there { IfOk result (λ found. IfSome found (λ u. HasSubst (joined base.now own.now).types u)) }
    ensures least { IfOk result (λ found. IfSome found (λ u. IsLeast (Matches (type_tree (joined base.now own.now).types pattern) (type_tree (joined base.now own.now).types t)) (subst_tree (joined base.now own.now).types s.now) (subst_tree (joined base.now own.now).types u))) }
    ensures once { IfOk result (λ found. IfSome found (λ u. NamesOnce s.now → NamesOnce u)) }
    ensures none { IfOk result (λ found. found ≡ None → NeverIs (subst_tree (joined base.now own.now).types s.now) (type_tree (joined base.now own.now).types pattern) (type_tree (joined base.now own.now).types t)) }
{
    let alloc = own.allocator();
    types::match_in(&base.types, &own.types, alloc, pattern, t, s.as_slice())
}
