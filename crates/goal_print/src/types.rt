//! Types are taken apart: what stands for one is put on the pieces, its last part first.
ghost use Rattle.std.specs.Prelude.{◌+◌, ◌++◌, OnOk, codes};
ghost use Rattle.std.specs.List.{AllByRecursion};
ghost use Rattle.hol_types.specs.Ty.{FunTy, ConsTy};
ghost use Rattle.hol_types.specs.TypeStore.{HasName, HasType, text_of, trees_at, type_tree};
ghost use Rattle.hol_terms.specs.TermStore.{TermStore};
ghost use Rattle.goal_text.specs.Names.{Constants};
ghost use Rattle.goal_print.specs.TypeText as type_texts;
ghost use Rattle.goal_print.specs.Pieces.{HasWord, Puts, type_work, types_work, word_text};

use crate::piece::{Piece, Word};
use hol_terms::{Base, Terms};
use hol_types::{NameId, TypeId, TypeNode};
use std::alloc::AllocError;

/// Puts a word where the flag holds.
fn put_where(holds: bool, word: Word, pieces: &mut Vec<Piece>) -> Result<(), AllocError>
    ensures { OnOk result ((s : TermStore) (consts : Constants) → HasWord s word → Puts s consts (type_texts.text_if holds (word_text s word)) 1 pieces.old.items pieces.new.items) }
{
    if !holds {
        return Ok(());
    }
    pieces.push(Piece::Word(word))?;
    Ok(())
}

/// Puts a type of one word.
fn put_atom(given: bool, word: Word, pieces: &mut Vec<Piece>) -> Result<(), AllocError>
    ensures { OnOk result ((s : TermStore) (consts : Constants) → HasWord s word → Puts s consts (type_texts.text_if given (codes " ") ++ word_text s word) 2 pieces.old.items pieces.new.items) }
{
    pieces.push(Piece::Word(word))?;
    put_where(given, Word::Blank, pieces)?;
    Ok(())
}

/// Puts the type of functions from one type to another.
#[tactic(auto, unfolding(crate::specs::TypeText::type_in))]
fn put_function(
    given: bool,
    from: TypeId,
    to: TypeId,
    pieces: &mut Vec<Piece>,
) -> Result<(), AllocError>
    ensures { OnOk result ((s : TermStore) (consts : Constants) → HasType s.types from → HasType s.types to → Puts s consts (type_texts.type_in given (FunTy (type_tree s.types from) (type_tree s.types to))) (type_work (FunTy (type_tree s.types from) (type_tree s.types to))) pieces.old.items pieces.new.items) }
{
    put_where(!given, Word::Close, pieces)?;
    pieces.push(Piece::TypeText(to, true))?;
    pieces.push(Piece::TypeText(from, false))?;
    pieces.push(Piece::Word(Word::Blank))?;
    put_where(!given, Word::Arrow, pieces)?;
    Ok(())
}

/// Puts types, a blank before each.
fn put_types(types: &[TypeId], pieces: &mut Vec<Piece>) -> Result<(), AllocError>
    ensures { OnOk result ((s : TermStore) (consts : Constants) → AllByRecursion (HasType s.types) types.now → Puts s consts (type_texts.types_text (trees_at s.types types.now)) (types_work (trees_at s.types types.now)) pieces.old.items pieces.new.items) }
{
    let mut k = types.len();
    while k > 0 {
        k -= 1;
        pieces.push(Piece::TypeText(types[k], false))?;
        pieces.push(Piece::Word(Word::Blank))?;
    }
    Ok(())
}

/// Puts a type constructor with its arguments.
fn put_constructor(
    given: bool,
    name: NameId,
    args: &[TypeId],
    pieces: &mut Vec<Piece>,
) -> Result<(), AllocError>
    ensures { OnOk result ((s : TermStore) (consts : Constants) → HasName s.types name → AllByRecursion (HasType s.types) args.now → Puts s consts (type_texts.type_in given (ConsTy (text_of s.types name) (trees_at s.types args.now))) (type_work (ConsTy (text_of s.types name) (trees_at s.types args.now))) pieces.old.items pieces.new.items) }
{
    let listed = !args.is_empty();
    put_where(listed, Word::Close, pieces)?;
    put_types(args, pieces)?;
    pieces.push(Piece::Word(Word::Name(name)))?;
    put_where(listed, Word::Open, pieces)?;
    put_where(given, Word::Blank, pieces)?;
    Ok(())
}

/// Puts a type by itself, or as what the function type gives whose list it stands in.
pub fn put_type(
    base: &Base,
    t: TypeId,
    given: bool,
    pieces: &mut Vec<Piece>,
) -> Result<(), AllocError>
    requires { HasType base.now.types t }
    ensures { OnOk result ((consts : Constants) → Puts base.now consts (type_texts.type_in given (type_tree base.now.types t)) (type_work (type_tree base.now.types t)) pieces.old.items pieces.new.items) }
{
    match base.type_node(t) {
        TypeNode::Bool => put_atom(given, Word::Bool, pieces)?,
        TypeNode::Int => put_atom(given, Word::Int, pieces)?,
        TypeNode::Var(name) => put_atom(given, Word::Name(*name), pieces)?,
        TypeNode::Fun(from, to) => put_function(given, *from, *to, pieces)?,
        TypeNode::Cons(name, args) => put_constructor(given, *name, args.as_slice(), pieces)?,
    }
    Ok(())
}
