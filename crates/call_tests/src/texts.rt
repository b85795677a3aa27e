ghost use Rattle.std.specs.Prelude.{◌<◌, ◌^◌};

use sexp::{Next, Reader, Rec, RecKind, SexpFault, Token, TokenKind, read_forest, read_tokens};
use std::alloc::{AllocError, Global};

fn token(start: u64, end: u64, kind: TokenKind) -> Result<Next, SexpFault> {
    Ok(Next::Token(Token { start, end, kind }))
}

/// The answers in the order in which they must come. Expected values are from the rules on tokens, by hand.
#[test]
fn answers(rt: HostRuntime) -> Result<(), AllocError> {
    let mut reader = Reader::new(rt.alloc(), 100);
    reader.feed(b"(a b")?;
    assert_eq!(rt; reader.next(), token(0, 1, TokenKind::Open));
    assert_eq!(rt; reader.next(), token(1, 2, TokenKind::Atom));
    assert_eq!(rt; reader.next(), Ok(Next::More));
    reader.finish();
    assert_eq!(rt; reader.next(), token(3, 4, TokenKind::Atom));
    assert_eq!(rt; reader.next(), Err(SexpFault::Unclosed(0)));
    assert_eq!(rt; reader.next(), Err(SexpFault::Unclosed(0)));

    let mut other = Reader::new(rt.alloc(), 8);
    other.feed(b";\xff\n|a b")?;
    assert_eq!(rt; other.next(), Ok(Next::More));
    other.feed(b"|")?;
    assert_eq!(rt; other.next(), token(3, 8, TokenKind::Quoted));
    assert_eq!(rt; other.is_long(), false);
    other.feed(b"\"")?;
    assert_eq!(rt; other.next(), Err(SexpFault::TooLong(8)));
    Ok(())
}

fn count(alloc: Global, text: &[u8], most: u64) -> Result<u32, SexpFault>
    requires { most < 2 ^ 32 }
{
    match read_forest(alloc, text, most) {
        Ok(forest) => Ok(forest.len()),
        Err(fault) => Err(fault),
    }
}

fn repeated(alloc: Global, text: &[u8], times: usize) -> Result<Vec<u8>, AllocError> {
    let mut out = Vec::new(alloc);
    for _ in 0..times {
        out.extend_from_slice(text)?;
    }
    Ok(out)
}

/// Whole texts with the number of their trees or their fault, by hand from the rules on tokens and depth.
#[test]
fn texts(rt: HostRuntime) -> Result<(), AllocError> {
    let alloc = rt.alloc();
    for (text, want) in [
        (&b""[..], Ok(0)),
        (&b"(a (b))"[..], Ok(4)),
        (&b"a;(\n|)|"[..], Ok(2)),
        (&b"(a))\""[..], Err(SexpFault::Unopened(3))),
        (&b"(a \"b\")"[..], Err(SexpFault::BadByte(3))),
        (&b"|a\\b|"[..], Err(SexpFault::BadByte(2))),
        (&b"(a (b |c)"[..], Err(SexpFault::Unclosed(6))),
        (&b"(a (b c"[..], Err(SexpFault::Unclosed(3))),
        (&b"\x7f"[..], Err(SexpFault::BadByte(0))),
        (&b"a\\b"[..], Ok(1)),
    ] {
        assert_eq!(rt; count(alloc, text, 100), want);
    }
    assert_eq!(rt; count(alloc, b"\"\"\"", 2), Err(SexpFault::TooLong(2)));
    let deep = repeated(alloc, b"(", 2001)?;
    assert_eq!(rt; count(alloc, &deep, 10_000), Err(SexpFault::TooDeep(2000)));
    let lets = repeated(alloc, b"(let ", 100_000)?;
    assert_eq!(rt;
        count(alloc, &lets, 1_000_000),
        Err(SexpFault::Unclosed(499_995))
    );
    Ok(())
}

fn rec(start: u32, end: u32, kind: RecKind, first: u32, after: u32) -> Rec {
    Rec {
        start,
        end,
        kind,
        first,
        after,
    }
}

/// The records of a text and what is told of them, by hand from the rules on tokens.
#[test]
fn records(rt: HostRuntime) -> Result<(), SexpFault> {
    let forest = read_forest(rt.alloc(), b"(a (|b c|)) a", 100)?;
    let end = forest.len();
    if end != 5 {
        return Err(SexpFault::TooLong(0));
    }
    assert_eq!(rt; forest.record(0), rec(0, 11, RecKind::List, 1, 4));
    assert_eq!(rt; forest.record(1), rec(1, 2, RecKind::Atom, 2, 2));
    assert_eq!(rt; forest.record(2), rec(3, 10, RecKind::List, 3, 4));
    assert_eq!(rt; forest.record(3), rec(4, 9, RecKind::Quoted, 4, 4));
    assert_eq!(rt; forest.record(4), rec(12, 13, RecKind::Atom, 5, 5));
    assert_eq!(rt; forest.start(2), 3);
    assert_eq!(rt; forest.after(2), 4);
    assert_eq!(rt; forest.kind(3), RecKind::Quoted);
    assert_eq!(rt; forest.atom(1), Some(&b"a"[..]));
    assert_eq!(rt; forest.atom(3), None);
    assert_eq!(rt; forest.name(3), Some(&b"b c"[..]));
    assert_eq!(rt; forest.name(2), None);
    assert_eq!(rt; forest.next(0, end), Some(4));
    assert_eq!(rt; forest.next(5, end), None);
    if forest.kind(4) != RecKind::List {
        assert_eq!(rt; forest.text(4), &b"a"[..]);
    }
    Ok(())
}

/// Tokens of pieces, by hand from the rules on tokens.
#[test]
fn pieces(rt: HostRuntime) -> Result<(), SexpFault> {
    let mut texts = Vec::new(rt.alloc());
    for text in [&b"(le"[..], &b"t"[..], &b")"[..]] {
        let Ok(piece) = Vec::from_slice(rt.alloc(), text) else {
            return Err(SexpFault::Memory);
        };
        let Ok(()) = texts.push(piece) else {
            return Err(SexpFault::Memory);
        };
    }
    let tokens = read_tokens(rt.alloc(), 5, &texts)?;
    assert_eq!(rt; tokens.len(), 3);
    assert_eq!(rt; read_tokens(rt.alloc(), 4, &texts).is_err(), true);
    Ok(())
}
