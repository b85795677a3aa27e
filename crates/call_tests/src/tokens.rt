//! Tokens and trees: whole texts with their trees or faults, a text cut at each pair of places, and what comes after memory
//! ran out once. Each call that may want memory is made a second time where it does, so the tests hold with any one
//! allocation failing.
ghost use Rattle.std.specs.Prelude.{◌≡◌, ◌<◌, ◌^◌, false};
ghost use Rattle.sexp.specs.Reading.{is_whole};

use sexp::{Next, Reader, RecKind, SexpFault, Token, TokenKind, read_forest, read_tokens};
use std::alloc::{AllocError, Global};

/// How many trees a text has, those within others counted.
fn count_once(alloc: Global, text: &[u8], most: u64) -> Result<u32, SexpFault>
    requires { most < 2 ^ 32 }
{
    match read_forest(alloc, text, most) {
        Ok(forest) => Ok(forest.len()),
        Err(fault) => Err(fault),
    }
}

fn count(alloc: Global, text: &[u8], most: u64) -> Result<u32, SexpFault>
    requires { most < 2 ^ 32 }
{
    match count_once(alloc, text, most) {
        Err(SexpFault::Memory) => count_once(alloc, text, most),
        counted => counted,
    }
}

/// A proof of 95 bytes.
const PROOF: &str =
    "(proof (unit-resolution (mp (asserted p$) (asserted (=> p$ q$)) q$) (asserted (not q$)) false))";

/// Whole texts of at most 100 bytes. Counted by hand: the trees of the proof are 8 lists and 14 atoms.
#[test]
fn whole_texts(rt: HostRuntime) -> Result<(), AllocError> {
    let alloc = rt.alloc();
    for (text, want) in [
        (PROOF, Ok(22)),
        // A list in the place of an atom, and atoms that stand close.
        ("a(b)c", Ok(4)),
        ("a|b|c", Ok(3)),
        ("||", Ok(1)),
        // A comment ends with its line, and may end with the text.
        (";(\n)", Err(SexpFault::Unopened(3))),
        ("a;|", Ok(1)),
        ("|a;\n|", Ok(1)),
        // Of two faults the one at the least byte; that a list or a bar is open comes last.
        (")\"", Err(SexpFault::Unopened(0))),
        ("\")", Err(SexpFault::BadByte(0))),
        ("(|a\"|", Err(SexpFault::Unclosed(0))),
        ("(|a\\|", Err(SexpFault::BadByte(3))),
        ("((a)", Err(SexpFault::Unclosed(0))),
        ("(a (|", Err(SexpFault::Unclosed(4))),
        ("a\u{7f}", Err(SexpFault::BadByte(1))),
    ] {
        assert_eq!(rt; count(alloc, text.as_bytes(), 100), want, "{text}");
    }
    assert_eq!(rt; PROOF.len(), 95);
    Ok(())
}

/// A text with one more byte behind it.
fn followed(alloc: Global, text: &str, byte: u8) -> Result<Vec<u8>, AllocError> {
    let mut bytes = Vec::with_capacity(alloc, 100)?;
    bytes.extend_from_slice(text.as_bytes())?;
    bytes.push(byte)?;
    Ok(bytes)
}

/// The proof with a parenthesis too many, and with a byte too many.
#[test]
fn one_more(rt: HostRuntime) -> Result<(), AllocError> {
    let alloc = rt.alloc();
    let bytes = match followed(alloc, PROOF, b')') {
        Ok(bytes) => bytes,
        Err(_) => followed(alloc, PROOF, b')')?,
    };
    assert_eq!(rt; count(alloc, &bytes, 96), Err(SexpFault::Unopened(95)));
    assert_eq!(rt; count(alloc, &bytes, 95), Err(SexpFault::TooLong(95)));
    Ok(())
}

fn repeated(alloc: Global, text: &[u8], times: usize, end: &[u8]) -> Result<Vec<u8>, AllocError> {
    let mut out = Vec::new(alloc);
    for _ in 0..times {
        out.extend_from_slice(text)?;
    }
    for _ in 0..times {
        out.extend_from_slice(end)?;
    }
    Ok(out)
}

/// Lists within lists: 2,000 are not too deep, one more is; any number that begin with `let` is not, and those don't count,
/// but `|let|` and `letter` do.
#[test]
fn depth(rt: HostRuntime) -> Result<(), AllocError> {
    let alloc = rt.alloc();
    for (text, end, times, want) in [
        (&b"("[..], &b")"[..], 2000, Ok(2000)),
        (&b"("[..], &b")"[..], 2001, Err(SexpFault::TooDeep(2000))),
        (&b"(let "[..], &b")"[..], 100_000, Ok(200_000)),
        // The list behind each `let` counts.
        (&b"(let ("[..], &b"))"[..], 2000, Ok(6000)),
        (
            &b"(let ("[..],
            &b"))"[..],
            2001,
            Err(SexpFault::TooDeep(12_005)),
        ),
        (
            &b"(|let|"[..],
            &b")"[..],
            2001,
            Err(SexpFault::TooDeep(12_000)),
        ),
        (
            &b"(letter "[..],
            &b")"[..],
            2001,
            Err(SexpFault::TooDeep(16_000)),
        ),
        (&b"( ;(\nlet "[..], &b")"[..], 2001, Ok(4002)),
    ] {
        let bytes = match repeated(alloc, text, times, end) {
            Ok(bytes) => bytes,
            Err(_) => repeated(alloc, text, times, end)?,
        };
        assert_eq!(rt; count(alloc, &bytes, 1_000_000), want);
    }
    Ok(())
}

/// The tokens of a text that comes in three pieces.
fn cut_once(
    alloc: Global,
    text: &str,
    first: usize,
    second: usize,
) -> Result<Vec<Token>, SexpFault> {
    let bytes = text.as_bytes();
    let mut pieces = Vec::new(alloc);
    if first <= second && second <= bytes.len() {
        for part in [&bytes[..first], &bytes[first..second], &bytes[second..]] {
            let Ok(piece) = Vec::from_slice(alloc, part) else {
                return Err(SexpFault::Memory);
            };
            let Ok(()) = pieces.push(piece) else {
                return Err(SexpFault::Memory);
            };
        }
    }
    read_tokens(alloc, 100, &pieces)
}

/// A text cut at each pair of places: the tokens are the same, counted by hand.
#[test]
fn cuts(rt: HostRuntime) -> Result<(), SexpFault> {
    let alloc = rt.alloc();
    let text = "(let|a b|;c)\n (b))";
    let want = [
        (0, 1, TokenKind::Open),
        (1, 4, TokenKind::Atom),
        (4, 9, TokenKind::Quoted),
        (14, 15, TokenKind::Open),
        (15, 16, TokenKind::Atom),
        (16, 17, TokenKind::Close),
        (17, 18, TokenKind::Close),
    ];
    for first in 0..19 {
        for second in first..19 {
            let tokens = match cut_once(alloc, text, first, second) {
                Err(SexpFault::Memory) => cut_once(alloc, text, first, second)?,
                tokens => tokens?,
            };
            assert_eq!(rt; tokens.len(), want.len(), "{first} {second}");
            for (token, (start, end, kind)) in tokens.iter().zip(want.iter()) {
                assert_eq!(rt; token.start, *start, "{first} {second}");
                assert_eq!(rt; token.end, *end, "{first} {second}");
                assert_eq!(rt; token.kind, *kind, "{first} {second}");
            }
        }
    }
    Ok(())
}

/// Takes a piece, at the second call where memory ran out at the first.
fn feed(reader: &mut Reader, piece: &[u8]) -> Result<(), AllocError>
    requires { is_whole reader.old ≡ false }
    ensures { is_whole reader.new ≡ false }
{
    match reader.feed(piece) {
        Ok(()) => Ok(()),
        Err(_) => reader.feed(piece),
    }
}

/// The next answer, and after want of memory the one that comes then.
fn answer(reader: &mut Reader) -> Result<Next, SexpFault>
    ensures { is_whole reader.new ≡ is_whole reader.old }
{
    match reader.next() {
        Err(SexpFault::Memory) => reader.next(),
        answer => answer,
    }
}

fn token(start: u64, end: u64, kind: TokenKind) -> Result<Next, SexpFault> {
    Ok(Next::Token(Token { start, end, kind }))
}

/// Want of memory takes none of a reader's answers away, and a fault that was answered is answered again.
#[test]
fn after_want_of_memory(rt: HostRuntime) -> Result<(), AllocError> {
    let mut reader = Reader::new(rt.alloc(), 100);
    feed(&mut reader, b"((a")?;
    assert_eq!(rt; answer(&mut reader), token(0, 1, TokenKind::Open));
    assert_eq!(rt; answer(&mut reader), token(1, 2, TokenKind::Open));
    assert_eq!(rt; answer(&mut reader), Ok(Next::More));
    feed(&mut reader, b"))\"")?;
    assert_eq!(rt; answer(&mut reader), token(2, 3, TokenKind::Atom));
    assert_eq!(rt; answer(&mut reader), token(3, 4, TokenKind::Close));
    assert_eq!(rt; answer(&mut reader), token(4, 5, TokenKind::Close));
    assert_eq!(rt; answer(&mut reader), Err(SexpFault::BadByte(5)));
    reader.finish();
    assert_eq!(rt; answer(&mut reader), Err(SexpFault::BadByte(5)));
    Ok(())
}

/// `(a (b))` has four trees, in text order.
#[test]
fn text_order(rt: HostRuntime) -> Result<(), SexpFault> {
    let forest = match read_forest(rt.alloc(), b"(a (b))", 7) {
        Err(SexpFault::Memory) => read_forest(rt.alloc(), b"(a (b))", 7)?,
        forest => forest?,
    };
    assert_eq!(rt; forest.len(), 4);
    // The kinds, the first bytes and the numbers behind, in order.
    for (i, (kind, start, after)) in [
        (RecKind::List, 0, 4),
        (RecKind::Atom, 1, 2),
        (RecKind::List, 3, 4),
        (RecKind::Atom, 4, 4),
    ]
    .iter()
    .enumerate()
    {
        let number = i as u32;
        if number < forest.len() {
            assert_eq!(rt; forest.kind(number), *kind);
            assert_eq!(rt; forest.start(number), *start);
            assert_eq!(rt; forest.after(number), *after);
        }
    }
    Ok(())
}
