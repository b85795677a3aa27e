ghost use Rattle.std.specs.Prelude.{◌≡◌, ◌<◌, ◌≤◌, ◌⊎◌, [], true, false, OnOk, length, flat_map, MatchResult, IfOk, Some, None, Err};
ghost use Rattle.sexp.specs.Text.{ends};
ghost use Rattle.sexp.specs.Nesting.{last};
ghost use Rattle.sexp.specs.Reading.{answers, is_whole};
ghost use Rattle.sexp.specs.Spans.{AreSpans};
ghost use Rattle.sexp.specs.TokenBytes.{AreTokensOf};
ghost use Rattle.sexp.specs.Tokens.{prepend, IsDrained, IsRest, answers_to, IsFaultOf};
ghost use Rattle.sexp.specs.declared.token.SexpFault.{SexpFault};

use crate::reader::Reader;
use crate::token::{Next, SexpFault, Token};
use std::alloc::{AllocError, Global};

/// Takes the tokens that are there.
fn drain(reader: &mut Reader, out: &mut Vec<Token>) -> Result<(), AllocError>
    ensures { OnOk result (IsDrained reader.old reader.new out.old.items out.new.items) }
{
    'tokens: loop {
        match reader.next() {
            Ok(Next::Token(token)) => match out.push(token) {
                Ok(()) => {}
                Err(_) => return Err(AllocError),
            },
            Ok(Next::More) => return Ok(()),
            Ok(Next::End) => return Ok(()),
            Err(_) => return Ok(()),
        }
    }
}

/// The rest of the tokens of a text that is whole.
fn rest(reader: &mut Reader, out: &mut Vec<Token>) -> Result<(), SexpFault>
    requires { is_whole reader.old ≡ true }
    ensures still { (fault : SexpFault) → reader.old.fault ≡ Some fault → (result ≡ Err fault) × (out.new.items ≡ out.old.items) }
    ensures reads { reader.old.fault ≡ None → reader.old.long ≡ false → IsRest result out.old.items (answers reader.old true []) out.new.items }
{
    'tokens: loop {
        match reader.next() {
            Ok(Next::Token(token)) => match out.push(token) {
                Ok(()) => {}
                Err(_) => return Err(SexpFault::Memory),
            },
            Ok(Next::End) => return Ok(()),
            Ok(Next::More) => return Ok(()),
            Err(fault) => return Err(fault),
        }
    }
}

/// The tokens of a text of at most `most` bytes that comes in pieces. They, or the fault, are those of the pieces
/// in a row; each stands behind the one before, and is what stands there in the text.
pub fn read_tokens(alloc: Global, most: u64, pieces: &[Vec<u8>]) -> Result<Vec<Token>, SexpFault>
    ensures too_long { most < length (flat_map (λ piece. piece.items) pieces.now)
        → (result ≡ Err (SexpFault.TooLong most)) ⊎ (result ≡ Err SexpFault.Memory) }
    ensures reads { length (flat_map (λ piece. piece.items) pieces.now) ≤ most → MatchResult result
        (λ out. answers_to (flat_map (λ piece. piece.items) pieces.now) ≡ prepend out.items (last ends))
        (λ fault. IsFaultOf fault (flat_map (λ piece. piece.items) pieces.now)) }
    ensures spans { IfOk result (λ out. AreSpans out.items 0 (length (flat_map (λ piece. piece.items) pieces.now))) }
    ensures bytes { IfOk result (λ out. AreTokensOf (flat_map (λ piece. piece.items) pieces.now) out.items) }
{
    let mut reader = Reader::new(alloc, most);
    let mut out = Vec::new(alloc);
    for piece in pieces {
        match reader.feed(piece) {
            Ok(()) => {}
            Err(_) => return Err(SexpFault::Memory),
        }
        match drain(&mut reader, &mut out) {
            Ok(()) => {}
            Err(_) => return Err(SexpFault::Memory),
        }
    }
    reader.finish();
    if reader.is_long() {
        return Err(SexpFault::TooLong(most));
    }
    match rest(&mut reader, &mut out) {
        Ok(()) => Ok(out),
        Err(fault) => Err(fault),
    }
}
