ghost use Rattle.std.specs.Prelude.{◌≡◌, ◌<◌, ◌≤◌, ◌+◌, ◌-◌, ◌^◌, true, false, [], ◌++◌, length, drop, OnOk, OnErr, Option, Some, None};
ghost use Rattle.sexp.specs.declared.lexis.Mode.TheVariants.{Between};
ghost use Rattle.sexp.specs.Lexing.{Lexing, fed_of, AreAlike, Sees};

use crate::lexis::{Mode, Word};
use crate::look::{Peek, look_at};
use std::alloc::{AllocError, Global};
use std::marker::Model;

/// Cuts a text into words, a piece at a time.
pub struct Lexer {
    bytes: Vec<u8>,
    place: usize,
    at: u64,
    mode: Mode,
    whole: bool,
    found: Option<Word>,
}

impl Drop for Lexer {
    fn drop(self) {
        let Lexer {
            bytes: _,
            place: _,
            at: _,
            mode: _,
            whole: _,
            found: _,
        } = self;
    }
}

impl Model for Lexer {
    ghost Value = { Lexing };

    ghost view = { λ l. record { left = drop l.place l.bytes.items; mode = l.mode; at = l.at; found = l.found; whole = l.whole } };

    ghost invariant = { λ l. (l.place ≤ length l.bytes.items) × (l.at + length (drop l.place l.bytes.items) < 2 ^ 64) };
}

impl Lexer {
    pub fn new(alloc: Global) -> Self
        ensures { result ≡ record { left = []; mode = Between; at = 0; found = None; whole = false } }
    {
        Lexer {
            bytes: Vec::new(alloc),
            place: 0,
            at: 0,
            mode: Mode::Between,
            whole: false,
            found: None,
        }
    }

    pub fn feed(&mut self, piece: &[u8]) -> Result<(), AllocError>
        requires { fed_of self.old + length piece.now < 2 ^ 64 }
        ensures ok { OnOk result (self.new ≡ record self.old { left = self.old.left ++ piece.now }) }
        ensures err { OnErr result (self.new ≡ self.old) }
    {
        if self.place == self.bytes.len() {
            self.bytes.clear();
            self.place = 0;
        }
        self.bytes.extend_from_slice(piece)
    }

    /// How many bytes were fed.
    pub fn fed(&self) -> u64
        ensures { result ≡ fed_of self.now }
    {
        self.at + (self.bytes.len() - self.place) as u64
    }

    /// Counts bytes that are not read.
    pub fn skip(&mut self, count: u64)
        requires { fed_of self.old + count < 2 ^ 64 }
        ensures { self.new ≡ record self.old { at = self.old.at + count } }
    {
        self.at += count;
    }

    /// No more bytes come.
    pub fn finish(&mut self)
        ensures { self.new ≡ record self.old { whole = true } }
    {
        self.whole = true;
    }

    /// The next word, which stays there.
    pub fn peek(&mut self) -> Peek
        ensures same { AreAlike self.old self.new }
        ensures fed { fed_of self.new ≡ fed_of self.old }
        ensures whole { self.new.whole ≡ self.old.whole }
        ensures sees { Sees result self.new }
    {
        match self.found {
            Some(word) => Peek::Word(word),
            None => {
                let look = look_at(&self.bytes[self.place..], self.mode, self.at, self.whole);
                self.place += look.read;
                self.at += look.read as u64;
                self.mode = look.mode;
                match look.peek {
                    Peek::Word(word) => {
                        self.found = Some(word);
                        Peek::Word(word)
                    }
                    Peek::Fault(fault) => Peek::Fault(fault),
                    Peek::End => Peek::End,
                    Peek::More => Peek::More,
                }
            }
        }
    }

    /// Drops the word that `peek` found.
    pub fn take(&mut self)
        ensures { self.new ≡ record self.old { found = None } }
    {
        self.found = None;
    }
}
