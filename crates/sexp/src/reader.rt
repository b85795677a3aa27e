ghost use Rattle.std.specs.Prelude.{◌≡◌, ◌≤◌, true, false, OnOk, OnErr, IfSome, Some, None, Err};
ghost use Rattle.sexp.specs.Reading.{start_of, fed, finished, is_whole, fault_of, GoesOn, StopsAt, KeepsFed};

use crate::answer::{Pending, next_answer};
use crate::lexer::Lexer;
use crate::look::Peek;
use crate::nest::Nest;
use crate::token::{Next, SexpFault};
use std::alloc::{AllocError, Global};
use std::marker::Model;

/// Reads the tokens of a text that comes in pieces. However the bytes are cut, the answers are those of the whole
/// text.
pub struct Reader {
    most: u64,
    long: bool,
    fault: Option<SexpFault>,
    lexer: Lexer,
    pending: Pending,
    nest: Nest,
}

impl Drop for Reader {
    fn drop(self) {
        let Reader {
            most: _,
            long: _,
            fault: _,
            lexer: _,
            pending: _,
            nest: _,
        } = self;
    }
}

impl Model for Reader {
    ghost use Rattle.std.specs.Prelude.{◌≤◌};
    ghost use Rattle.sexp.specs.Lexing.{fed_of};
    ghost use Rattle.sexp.specs.Reading.{Reading};

    ghost Value = { Reading };

    ghost view = { λ r. record { most = r.most; long = r.long; fault = r.fault; lexing = r.lexer; pending = r.pending; lists = r.nest } };

    ghost invariant = { λ r. fed_of r.lexer ≤ r.most };
}

impl Reader {
    /// A reader before the first byte of a text of at most `most` bytes.
    pub fn new(alloc: Global, most: u64) -> Self
        ensures { result ≡ start_of most }
    {
        Reader {
            most,
            long: false,
            fault: None,
            lexer: Lexer::new(alloc),
            pending: Pending::Nothing,
            nest: Nest::new(alloc),
        }
    }

    /// Takes the next bytes of the text. Behind a fault that was answered, and past `most`, they are only counted.
    /// An `Err` changes nothing.
    pub fn feed(&mut self, piece: &[u8]) -> Result<(), AllocError>
        requires { is_whole self.old ≡ false }
        ensures ok { OnOk result (self.new ≡ fed self.old piece.now) }
        ensures err { OnErr result (self.new ≡ self.old) }
    {
        if self.long || piece.len() as u64 > self.most - self.lexer.fed() {
            self.long = true;
            return Ok(());
        }
        if self.fault.is_some() {
            self.lexer.skip(piece.len() as u64);
            return Ok(());
        }
        self.lexer.feed(piece)
    }

    /// Says that no more bytes come.
    pub fn finish(&mut self)
        ensures { self.new ≡ finished self.old }
    {
        self.lexer.finish();
    }

    /// Whether more than `most` bytes were fed.
    pub fn is_long(&self) -> bool
        ensures { result ≡ self.now.long }
    {
        self.long
    }

    /// The next token, or what comes in its place: `More` where the bytes fed so far don't end it, `End` at the end
    /// of a text that is whole, or the text's first fault, which each later call answers again. `TooLong` goes before
    /// each token and each other fault that wasn't answered yet. After `Memory` the same answers are still to come.
    pub fn next(&mut self) -> Result<Next, SexpFault>
        ensures again { IfSome self.old.fault (λ fault. (result ≡ Err fault) × (self.new ≡ self.old)) }
        ensures too_long { self.old.fault ≡ None → self.old.long ≡ true → result ≡ Err (SexpFault.TooLong self.old.most) }
        ensures next { self.old.fault ≡ None → self.old.long ≡ false → GoesOn result self.old self.new }
        ensures stop { self.old.fault ≡ None → self.old.long ≡ false → StopsAt result self.new }
        ensures kept { self.old.fault ≡ None → self.new.fault ≡ fault_of result }
        ensures fed { KeepsFed self.old self.new }
    {
        if let Some(fault) = self.fault {
            return Err(fault);
        }
        if self.long {
            return self.fail(SexpFault::TooLong(self.most));
        }
        match next_answer(&mut self.lexer, &mut self.pending, &mut self.nest) {
            Peek::Word(word) => Ok(Next::Token(word.as_token())),
            Peek::Fault(fault) => self.fail(fault),
            Peek::End => Ok(Next::End),
            Peek::More => Ok(Next::More),
        }
    }

    /// Answers a fault, and keeps it. Want of memory isn't kept.
    fn fail(&mut self, fault: SexpFault) -> Result<Next, SexpFault>
        requires { self.old.fault ≡ None }
        ensures answer { result ≡ Err fault }
        ensures kept { self.new ≡ record self.old { fault = fault_of (Err fault) } }
    {
        if fault != SexpFault::Memory {
            self.fault = Some(fault);
        }
        Err(fault)
    }
}
