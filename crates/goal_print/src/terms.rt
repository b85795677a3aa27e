//! Terms are taken apart: what stands for one is put on the pieces, its last part first.
ghost use Rattle.std.specs.Prelude.{◌+◌, ◌++◌, ◌<◌, ◌^◌, OnOk, Some, true, codes};
ghost use Rattle.hol_types.specs.TypeStore.{HasName, HasType, text_of, type_tree};
ghost use Rattle.hol_terms.specs.TermStore.{TermStore, term_tree};
ghost use Rattle.hol_terms.specs.Term.{AppTm, LamTm};
ghost use Rattle.goal_text.specs.Names.{Constants};
ghost use Rattle.goal_print.specs.Kinds as kinds;
ghost use Rattle.goal_print.specs.TermText as texts;
ghost use Rattle.goal_print.specs.Pieces.{Grows, HasWord, IsWithin, KnowsSchematic, Puts, parts_in, term_work, type_work, word_text};

use crate::kind::{Kind, kind_of};
use crate::piece::{Piece, Word};
use hol_terms::{Base, Node, TermId, Terms};
use hol_types::{NameId, TypeId};
use std::alloc::AllocError;
use std::collections::HashSet;

/// Puts a term of one word.
fn put_leaf(place: Option<Kind>, word: Word, pieces: &mut Vec<Piece>) -> Result<(), AllocError>
    ensures { OnOk result ((s : TermStore) (consts : Constants) → HasWord s word → Puts s consts (kinds.lead place Kind.Leaf ++ word_text s word) 2 pieces.old.items pieces.new.items) }
{
    pieces.push(Piece::Word(word))?;
    pieces.push(Piece::Word(Word::Lead(place, Kind::Leaf)))?;
    Ok(())
}

/// Puts a constant with its type.
fn put_ascription(
    place: Option<Kind>,
    name: NameId,
    ty: TypeId,
    pieces: &mut Vec<Piece>,
) -> Result<(), AllocError>
    ensures { OnOk result ((s : TermStore) (consts : Constants) → HasName s.types name → HasType s.types ty → Puts s consts (kinds.lead place Kind.Leaf ++ texts.constant_text true (text_of s.types name) (type_tree s.types ty)) (6 + type_work (type_tree s.types ty)) pieces.old.items pieces.new.items) }
{
    pieces.push(Piece::Word(Word::Close))?;
    pieces.push(Piece::TypeText(ty, false))?;
    pieces.push(Piece::Word(Word::Blank))?;
    pieces.push(Piece::Word(Word::Name(name)))?;
    pieces.push(Piece::Word(Word::As))?;
    pieces.push(Piece::Word(Word::Lead(place, Kind::Leaf)))?;
    Ok(())
}

/// Puts a constant, with its type where it is declared with type variables.
fn put_constant(
    schematic: bool,
    place: Option<Kind>,
    name: NameId,
    ty: TypeId,
    pieces: &mut Vec<Piece>,
) -> Result<(), AllocError>
    ensures { OnOk result ((s : TermStore) (consts : Constants) → HasName s.types name → HasType s.types ty → Puts s consts (kinds.lead place Kind.Leaf ++ texts.constant_text schematic (text_of s.types name) (type_tree s.types ty)) (6 + type_work (type_tree s.types ty)) pieces.old.items pieces.new.items) }
{
    if schematic {
        put_ascription(place, name, ty, pieces)?;
        return Ok(());
    }
    put_leaf(place, Word::Constant(name), pieces)?;
    Ok(())
}

/// Puts a variable with its type, and the body of its binder.
fn put_bound(
    kind: Kind,
    depth: u32,
    ty: TypeId,
    body: TermId,
    pieces: &mut Vec<Piece>,
) -> Result<(), AllocError>
    requires { depth + 1 < 2 ^ 32 }
    ensures { OnOk result ((s : TermStore) (consts : Constants) → HasType s.types ty → IsWithin s (depth + 1) body → Puts s consts (texts.binder_text depth (type_tree s.types ty) ++ texts.text_in consts (Some kind) (depth + 1) (term_tree s body)) (6 + type_work (type_tree s.types ty) + term_work (term_tree s body)) pieces.old.items pieces.new.items) }
{
    pieces.push(Piece::TermText(Some(kind), depth + 1, body))?;
    pieces.push(Piece::Word(Word::Close))?;
    pieces.push(Piece::TypeText(ty, false))?;
    pieces.push(Piece::Word(Word::Blank))?;
    pieces.push(Piece::Word(Word::Variable(depth)))?;
    pieces.push(Piece::Word(Word::Open))?;
    Ok(())
}

/// Puts a lambda.
#[tactic(auto, unfolding(crate::specs::TermText::text_in))]
fn put_lambda(
    place: Option<Kind>,
    depth: u32,
    ty: TypeId,
    body: TermId,
    pieces: &mut Vec<Piece>,
) -> Result<(), AllocError>
    requires { depth + 1 < 2 ^ 32 }
    ensures { OnOk result ((s : TermStore) (consts : Constants) → HasType s.types ty → IsWithin s (depth + 1) body → Puts s consts (texts.text_in consts place depth (LamTm (type_tree s.types ty) (term_tree s body))) (term_work (LamTm (type_tree s.types ty) (term_tree s body))) pieces.old.items pieces.new.items) }
{
    pieces.push(Piece::Word(Word::CloseList(place, Kind::Lambda)))?;
    put_bound(Kind::Lambda, depth, ty, body, pieces)?;
    pieces.push(Piece::Word(Word::OpenList(place, Kind::Lambda)))?;
    pieces.push(Piece::Word(Word::Lead(place, Kind::Lambda)))?;
    Ok(())
}

/// Puts the variable and the body of a quantifier's lambda.
fn put_body(
    base: &Base,
    kind: Kind,
    depth: u32,
    x: TermId,
    pieces: &mut Vec<Piece>,
) -> Result<(), AllocError>
    requires { IsWithin base.now depth x }
    ensures { OnOk result ((consts : Constants) → Puts base.now consts (texts.body_in consts kind depth (term_tree base.now x)) (term_work (term_tree base.now x)) pieces.old.items pieces.new.items) }
{
    let Node::Lam(ty, body) = base.node(x) else {
        return Ok(());
    };
    put_bound(kind, depth, ty, body, pieces)?;
    Ok(())
}

/// Puts a function and its argument.
fn put_applied(depth: u32, f: TermId, x: TermId, pieces: &mut Vec<Piece>) -> Result<(), AllocError>
    ensures { OnOk result ((s : TermStore) (consts : Constants) → IsWithin s depth f → IsWithin s depth x → Puts s consts (parts_in consts Kind.Application depth (term_tree s f) (term_tree s x)) (3 + term_work (term_tree s f) + term_work (term_tree s x)) pieces.old.items pieces.new.items) }
{
    pieces.push(Piece::TermText(None, depth, x))?;
    pieces.push(Piece::Word(Word::Blank))?;
    pieces.push(Piece::TermText(Some(Kind::Application), depth, f))?;
    Ok(())
}

/// Puts the two parts of an operation that is joined to the right.
fn put_to_the_right(
    base: &Base,
    kind: Kind,
    depth: u32,
    f: TermId,
    x: TermId,
    pieces: &mut Vec<Piece>,
) -> Result<(), AllocError>
    requires function { IsWithin base.now depth f }
    requires argument { IsWithin base.now depth x }
    ensures { OnOk result ((consts : Constants) → Puts base.now consts (codes " " ++ texts.first_in consts None depth (term_tree base.now f) ++ texts.text_in consts (Some kind) depth (term_tree base.now x)) (3 + term_work (term_tree base.now f) + term_work (term_tree base.now x)) pieces.old.items pieces.new.items) }
{
    pieces.push(Piece::TermText(Some(kind), depth, x))?;
    let Node::App(_, a) = base.node(f) else {
        pieces.push(Piece::Word(Word::Blank))?;
        return Ok(());
    };
    pieces.push(Piece::TermText(None, depth, a))?;
    pieces.push(Piece::Word(Word::Blank))?;
    Ok(())
}

/// Puts the two parts of an operation that is joined to the left.
fn put_to_the_left(
    base: &Base,
    kind: Kind,
    depth: u32,
    f: TermId,
    x: TermId,
    pieces: &mut Vec<Piece>,
) -> Result<(), AllocError>
    requires function { IsWithin base.now depth f }
    requires argument { IsWithin base.now depth x }
    ensures { OnOk result ((consts : Constants) → Puts base.now consts (texts.first_in consts (Some kind) depth (term_tree base.now f) ++ codes " " ++ texts.text_in consts None depth (term_tree base.now x)) (3 + term_work (term_tree base.now f) + term_work (term_tree base.now x)) pieces.old.items pieces.new.items) }
{
    pieces.push(Piece::TermText(None, depth, x))?;
    pieces.push(Piece::Word(Word::Blank))?;
    let Node::App(_, a) = base.node(f) else {
        return Ok(());
    };
    pieces.push(Piece::TermText(Some(kind), depth, a))?;
    Ok(())
}

/// Puts the parts of an application of the kind.
fn put_parts(
    base: &Base,
    kind: Kind,
    depth: u32,
    f: TermId,
    x: TermId,
    pieces: &mut Vec<Piece>,
) -> Result<(), AllocError>
    requires function { IsWithin base.now depth f }
    requires argument { IsWithin base.now depth x }
    ensures { OnOk result ((consts : Constants) → Puts base.now consts (parts_in consts kind depth (term_tree base.now f) (term_tree base.now x)) (3 + term_work (term_tree base.now f) + term_work (term_tree base.now x)) pieces.old.items pieces.new.items) }
{
    match kind {
        Kind::Leaf => put_applied(depth, f, x, pieces)?,
        Kind::Application => put_applied(depth, f, x, pieces)?,
        Kind::Conditional => put_applied(depth, f, x, pieces)?,
        Kind::NegatedZero => put_applied(depth, f, x, pieces)?,
        Kind::And => put_to_the_right(base, kind, depth, f, x, pieces)?,
        Kind::Or => put_to_the_right(base, kind, depth, f, x, pieces)?,
        Kind::Sum => put_to_the_left(base, kind, depth, f, x, pieces)?,
        Kind::Product => put_to_the_left(base, kind, depth, f, x, pieces)?,
        Kind::Forall => put_body(base, kind, depth, x, pieces)?,
        Kind::Exists => put_body(base, kind, depth, x, pieces)?,
        Kind::Lambda => put_body(base, kind, depth, x, pieces)?,
    }
    Ok(())
}

/// Puts an application.
#[tactic(auto, unfolding(crate::specs::TermText::text_in))]
fn put_application(
    base: &Base,
    place: Option<Kind>,
    depth: u32,
    f: TermId,
    x: TermId,
    pieces: &mut Vec<Piece>,
) -> Result<(), AllocError>
    requires function { IsWithin base.now depth f }
    requires argument { IsWithin base.now depth x }
    ensures { OnOk result ((consts : Constants) → Puts base.now consts (texts.text_in consts place depth (AppTm (term_tree base.now f) (term_tree base.now x))) (term_work (AppTm (term_tree base.now f) (term_tree base.now x))) pieces.old.items pieces.new.items) }
{
    let kind = kind_of(base, f, x);
    pieces.push(Piece::Word(Word::CloseList(place, kind)))?;
    put_parts(base, kind, depth, f, x, pieces)?;
    pieces.push(Piece::Word(Word::OpenList(place, kind)))?;
    pieces.push(Piece::Word(Word::Lead(place, kind)))?;
    Ok(())
}

/// Puts a term in its place, within so many binders.
#[tactic(auto, unfolding(crate::specs::TermText::text_in))]
pub fn put_term(
    base: &Base,
    schematic: &HashSet<NameId>,
    place: Option<Kind>,
    depth: u32,
    t: TermId,
    pieces: &mut Vec<Piece>,
) -> Result<(), AllocError>
    requires { IsWithin base.now depth t }
    ensures text { OnOk result ((consts : Constants) → KnowsSchematic base.now consts schematic.now → Puts base.now consts (texts.text_in consts place depth (term_tree base.now t)) (term_work (term_tree base.now t)) pieces.old.items pieces.new.items) }
    ensures grows { OnOk result (Grows base.now (term_work (term_tree base.now t)) pieces.old.items pieces.new.items) }
{
    match base.node(t) {
        Node::Free(_, name, _) => put_leaf(place, Word::Name(name), pieces)?,
        Node::Bound(index, _) => {
            let k = depth.saturating_sub(1).saturating_sub(index);
            put_leaf(place, Word::Variable(k), pieces)?
        }
        Node::Num(value) => put_leaf(place, Word::Literal(value), pieces)?,
        Node::Const(name, ty) => {
            let with_type = schematic.contains(&name);
            put_constant(with_type, place, name, ty, pieces)?
        }
        Node::App(f, x) => put_application(base, place, depth, f, x, pieces)?,
        Node::Lam(ty, body) => put_lambda(place, depth, ty, body, pieces)?,
    }
    Ok(())
}
