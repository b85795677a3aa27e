//! Words are written.
ghost use Rattle.std.specs.Prelude.{◌≡◌, ◌++◌, OnOk, OnErr};
ghost use Rattle.goal_print.specs.TermText as texts;
ghost use Rattle.goal_print.specs.Pieces.{HasWord, word_text};

use crate::kind::{close_list, lead, open_list};
use crate::piece::Word;
use hol_terms::{Base, Terms};
use hol_types::Bytes;
use std::alloc::{AllocError, Global};

/// Appends a literal.
fn append_literal(alloc: Global, value: i128, out: &mut Bytes) -> Result<(), AllocError>
    ensures ok { OnOk result (out.new ≡ out.old ++ texts.literal_text value) }
    ensures err { OnErr result (out.new ≡ out.old) }
{
    let n = value.unsigned_abs();
    if value < 0 {
        let text = format!(in alloc; "(- {n})")?;
        out.extend_from_slice(text.as_bytes())
    } else {
        let text = format!(in alloc; "{n}")?;
        out.extend_from_slice(text.as_bytes())
    }
}

/// Appends the variable of a binder with so many round it.
fn append_variable(alloc: Global, k: u32, out: &mut Bytes) -> Result<(), AllocError>
    ensures ok { OnOk result (out.new ≡ out.old ++ texts.variable_text k) }
    ensures err { OnErr result (out.new ≡ out.old) }
{
    let text = format!(in alloc; "?v{k}")?;
    out.extend_from_slice(text.as_bytes())
}

/// Appends a constant by the word of the grammar.
#[tactic(auto, unfolding(crate::specs::TermText::word_for))]
fn append_constant(name: &[u8], out: &mut Bytes) -> Result<(), AllocError>
    ensures ok { OnOk result (out.new ≡ out.old ++ texts.word_for name.now) }
    ensures err { OnErr result (out.new ≡ out.old) }
{
    if name == b"eq".as_slice() {
        out.extend_from_slice(b"=".as_slice())
    } else if name == b"neg".as_slice() {
        out.extend_from_slice(b"-".as_slice())
    } else if name == b"sub".as_slice() {
        out.extend_from_slice(b"-".as_slice())
    } else if name == b"le".as_slice() {
        out.extend_from_slice(b"<=".as_slice())
    } else if name == b"lt".as_slice() {
        out.extend_from_slice(b"<".as_slice())
    } else {
        out.extend_from_slice(name)
    }
}

/// Appends a word. Without memory nothing is appended.
pub fn append_word(
    alloc: Global,
    base: &Base,
    word: Word,
    out: &mut Bytes,
) -> Result<(), AllocError>
    requires { HasWord base.now word }
    ensures ok { OnOk result (out.new ≡ out.old ++ word_text base.now word) }
    ensures err { OnErr result (out.new ≡ out.old) }
{
    match word {
        Word::Blank => out.extend_from_slice(b" ".as_slice()),
        Word::Open => out.extend_from_slice(b"(".as_slice()),
        Word::Close => out.extend_from_slice(b")".as_slice()),
        Word::Arrow => out.extend_from_slice(b"(->".as_slice()),
        Word::As => out.extend_from_slice(b"(as ".as_slice()),
        Word::Bool => out.extend_from_slice(b"Bool".as_slice()),
        Word::Int => out.extend_from_slice(b"Int".as_slice()),
        Word::Lead(place, kind) => out.extend_from_slice(lead(place, kind)),
        Word::OpenList(place, kind) => out.extend_from_slice(open_list(place, kind)),
        Word::CloseList(place, kind) => out.extend_from_slice(close_list(place, kind)),
        Word::Name(name) => out.extend_from_slice(base.text(name)),
        Word::Constant(name) => append_constant(base.text(name), out),
        Word::Literal(value) => append_literal(alloc, value, out),
        Word::Variable(k) => append_variable(alloc, k, out),
    }
}
