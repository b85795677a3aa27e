//! What a term is, as far as its list goes.
ghost use Rattle.std.specs.Prelude.{◌≡◌, Some};
ghost use Rattle.hol_types.specs.TypeStore.{HasName, text_of};
ghost use Rattle.hol_terms.specs.TermStore.{HasTerm, term_tree};
ghost use Rattle.goal_print.specs.Kinds as kinds;

use hol_terms::{Base, Node, TermId, Terms};
use hol_types::NameId;

/// What a term is, as far as its list goes: a term in a list of its own kind goes on with that list.
#[derive(Clone, Copy, PartialEq, Eq, Debug)]
pub enum Kind {
    /// A term without parts, which has no list.
    Leaf,
    /// A function applied to arguments.
    Application,
    /// A conditional, whose list has exactly three parts.
    Conditional,
    /// The negative of 0, which is written `(- (- 0))`: a file reads `(- 0)` as the number.
    NegatedZero,
    And,
    Or,
    Sum,
    Product,
    Forall,
    Exists,
    Lambda,
}

/// What an application of a constant to two arguments is.
fn kind_by_two(name: &[u8]) -> Kind
    ensures { result ≡ kinds.kind_by_two name.now }
{
    if name == b"and".as_slice() {
        Kind::And
    } else if name == b"or".as_slice() {
        Kind::Or
    } else if name == b"+".as_slice() {
        Kind::Sum
    } else if name == b"*".as_slice() {
        Kind::Product
    } else {
        Kind::Application
    }
}

/// What an application of a constant to a lambda is.
fn kind_by_lambda(name: &[u8]) -> Kind
    ensures { result ≡ kinds.kind_by_lambda name.now }
{
    if name == b"all".as_slice() {
        Kind::Forall
    } else if name == b"ex".as_slice() {
        Kind::Exists
    } else {
        Kind::Application
    }
}

/// What an application of a constant to a number is.
fn kind_by_number(name: &[u8], value: i128) -> Kind
    ensures { result ≡ kinds.kind_by_number name.now value }
{
    if name == b"neg".as_slice() && value == 0 {
        Kind::NegatedZero
    } else {
        Kind::Application
    }
}

/// What an application of a constant to three arguments is.
fn kind_by_three(name: &[u8]) -> Kind
    ensures { result ≡ kinds.kind_by_three name.now }
{
    if name == b"ite".as_slice() {
        Kind::Conditional
    } else {
        Kind::Application
    }
}

/// What an application of a term to three arguments is.
fn kind_of_three(base: &Base, f: TermId) -> Kind
    requires { HasTerm base.now f }
    ensures { result ≡ kinds.kind_of_three (term_tree base.now f) }
{
    match base.node(f) {
        Node::Const(name, _) => kind_by_three(base.text(name)),
        Node::Free(_, _, _) => Kind::Application,
        Node::Bound(_, _) => Kind::Application,
        Node::Num(_) => Kind::Application,
        Node::App(_, _) => Kind::Application,
        Node::Lam(_, _) => Kind::Application,
    }
}

/// What an application of a term to two arguments is.
fn kind_of_two(base: &Base, f: TermId) -> Kind
    requires { HasTerm base.now f }
    ensures { result ≡ kinds.kind_of_two (term_tree base.now f) }
{
    match base.node(f) {
        Node::Const(name, _) => kind_by_two(base.text(name)),
        Node::App(g, _) => kind_of_three(base, g),
        Node::Free(_, _, _) => Kind::Application,
        Node::Bound(_, _) => Kind::Application,
        Node::Num(_) => Kind::Application,
        Node::Lam(_, _) => Kind::Application,
    }
}

/// What an application of a constant is.
fn kind_of_constant(base: &Base, name: NameId, x: TermId) -> Kind
    requires name { HasName base.now.types name }
    requires argument { HasTerm base.now x }
    ensures { result ≡ kinds.kind_of_constant (text_of base.now.types name) (term_tree base.now x) }
{
    match base.node(x) {
        Node::Lam(_, _) => kind_by_lambda(base.text(name)),
        Node::Num(value) => kind_by_number(base.text(name), value),
        Node::Free(_, _, _) => Kind::Application,
        Node::Bound(_, _) => Kind::Application,
        Node::Const(_, _) => Kind::Application,
        Node::App(_, _) => Kind::Application,
    }
}

/// What an application is.
#[tactic(auto, unfolding(crate::specs::Kinds::kind_of))]
pub fn kind_of(base: &Base, f: TermId, x: TermId) -> Kind
    requires function { HasTerm base.now f }
    requires argument { HasTerm base.now x }
    ensures { result ≡ kinds.kind_of (term_tree base.now f) (term_tree base.now x) }
{
    match base.node(f) {
        Node::Const(name, _) => kind_of_constant(base, name, x),
        Node::App(g, _) => kind_of_two(base, g),
        Node::Free(_, _, _) => Kind::Application,
        Node::Bound(_, _) => Kind::Application,
        Node::Num(_) => Kind::Application,
        Node::Lam(_, _) => Kind::Application,
    }
}

/// Whether a term goes on with the list in which it stands.
#[tactic(auto, using(crate::proofs::KindLemmas::is_same, crate::proofs::KindLemmas::is_other))]
fn goes_on(place: Option<Kind>, kind: Kind) -> bool
    ensures { result ≡ kinds.goes_on place kind }
{
    place == Some(kind)
}

/// What goes before a part that doesn't go on with the list of the kind.
fn before(place: Option<Kind>) -> &'static [u8]
    ensures { result.now ≡ kinds.before place }
{
    match place {
        None => b"".as_slice(),
        Some(Kind::Leaf) => b"".as_slice(),
        Some(Kind::Application) => b"".as_slice(),
        Some(Kind::Conditional) => b"".as_slice(),
        Some(Kind::NegatedZero) => b"".as_slice(),
        Some(Kind::And) => b" ".as_slice(),
        Some(Kind::Or) => b" ".as_slice(),
        Some(Kind::Sum) => b" ".as_slice(),
        Some(Kind::Product) => b" ".as_slice(),
        Some(Kind::Forall) => b") ".as_slice(),
        Some(Kind::Exists) => b") ".as_slice(),
        Some(Kind::Lambda) => b") ".as_slice(),
    }
}

/// What goes before a part that goes on with the list of the kind.
fn between(kind: Kind) -> &'static [u8]
    ensures { result.now ≡ kinds.between kind }
{
    match kind {
        Kind::Leaf => b"".as_slice(),
        Kind::Application => b"".as_slice(),
        Kind::Conditional => b"".as_slice(),
        Kind::NegatedZero => b"".as_slice(),
        Kind::And => b"".as_slice(),
        Kind::Or => b"".as_slice(),
        Kind::Sum => b"".as_slice(),
        Kind::Product => b"".as_slice(),
        Kind::Forall => b" ".as_slice(),
        Kind::Exists => b" ".as_slice(),
        Kind::Lambda => b" ".as_slice(),
    }
}

/// How a list of the kind opens.
fn opening(kind: Kind) -> &'static [u8]
    ensures { result.now ≡ kinds.opening kind }
{
    match kind {
        Kind::Leaf => b"".as_slice(),
        Kind::Application => b"(".as_slice(),
        Kind::Conditional => b"(".as_slice(),
        Kind::NegatedZero => b"(- (".as_slice(),
        Kind::And => b"(and".as_slice(),
        Kind::Or => b"(or".as_slice(),
        Kind::Sum => b"(+".as_slice(),
        Kind::Product => b"(*".as_slice(),
        Kind::Forall => b"(forall (".as_slice(),
        Kind::Exists => b"(exists (".as_slice(),
        Kind::Lambda => b"(lambda (".as_slice(),
    }
}

/// How a list of the kind closes.
fn closing(kind: Kind) -> &'static [u8]
    ensures { result.now ≡ kinds.closing kind }
{
    match kind {
        Kind::Leaf => b"".as_slice(),
        Kind::Application => b")".as_slice(),
        Kind::Conditional => b")".as_slice(),
        Kind::NegatedZero => b"))".as_slice(),
        Kind::And => b")".as_slice(),
        Kind::Or => b")".as_slice(),
        Kind::Sum => b")".as_slice(),
        Kind::Product => b")".as_slice(),
        Kind::Forall => b")".as_slice(),
        Kind::Exists => b")".as_slice(),
        Kind::Lambda => b")".as_slice(),
    }
}

/// What leads to a term of the kind in its place.
#[tactic(auto, unfolding(crate::specs::Kinds::lead))]
pub fn lead(place: Option<Kind>, kind: Kind) -> &'static [u8]
    ensures { result.now ≡ kinds.lead place kind }
{
    if goes_on(place, kind) {
        between(kind)
    } else {
        before(place)
    }
}

/// What opens the list of such a term.
#[tactic(auto, unfolding(crate::specs::Kinds::open_list))]
pub fn open_list(place: Option<Kind>, kind: Kind) -> &'static [u8]
    ensures { result.now ≡ kinds.open_list place kind }
{
    if goes_on(place, kind) {
        b"".as_slice()
    } else {
        opening(kind)
    }
}

/// What closes it.
#[tactic(auto, unfolding(crate::specs::Kinds::close_list))]
pub fn close_list(place: Option<Kind>, kind: Kind) -> &'static [u8]
    ensures { result.now ≡ kinds.close_list place kind }
{
    if goes_on(place, kind) {
        b"".as_slice()
    } else {
        closing(kind)
    }
}
