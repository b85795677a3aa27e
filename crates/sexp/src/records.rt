ghost use Rattle.std.specs.Prelude.{◌≡◌, ◌<◌, ◌+◌, ◌∷◌, ◌++◌, ◌^◌, [], length, OnOk, OnErr, MatchOption, Some, None, List, ℕ};
ghost use Rattle.sexp.specs.Forest.{ListBody, AtomBody, QuotedBody, kept_at, rec_at, kind_of, body_text};
ghost use Rattle.sexp.specs.Records.{leaf, closed_at, body_in};

use crate::rec::{Rec, RecKind};
use crate::texts::Texts;
use crate::token::Token;
use std::alloc::{AllocError, Global};
use std::marker::Model;

/// What a tree is, an atom with the number of its text.
#[derive(Clone, Copy, Debug, PartialEq, Eq)]
pub enum Content {
    List,
    Atom(u32),
    Quoted(u32),
}

impl Content {
    fn kind(self) -> RecKind
        ensures { (texts : List (List ℕ)) → result ≡ kind_of (body_in texts self) }
    {
        match self {
            Content::List => RecKind::List,
            Content::Atom(_) => RecKind::Atom,
            Content::Quoted(_) => RecKind::Quoted,
        }
    }
}

/// What is kept of a tree.
#[derive(Clone, Copy, Debug, PartialEq, Eq)]
pub struct Record {
    pub start: u32,
    pub end: u32,
    pub after: u32,
    pub content: Content,
}

/// Trees by number, in text order.
pub struct Records {
    records: Vec<Record>,
    texts: Texts,
}

impl Drop for Records {
    fn drop(self) {
        let Records {
            records: _,
            texts: _,
        } = self;
    }
}

impl Model for Records {
    ghost use Rattle.std.specs.Prelude.{List, map};
    ghost use Rattle.sexp.specs.Forest.{Kept};
    ghost use Rattle.sexp.specs.Records.{kept_in, HaveTexts};

    ghost Value = { List Kept };

    ghost view = { λ r. map (kept_in r.texts) r.records.items };

    ghost invariant = { λ r. HaveTexts r.texts r.records.items };
}

fn push(records: &mut Vec<Record>, token: Token, content: Content) -> Result<(), AllocError>
    requires start { token.start < 2 ^ 32 }
    requires end { token.end < 2 ^ 32 }
    requires room { length records.old.items + 1 < 2 ^ 32 }
    ensures ok { OnOk result (records.new.items ≡ records.old.items ++ (record { start = token.start; end = token.end; after = length records.old.items + 1; content = content }) ∷ []) }
    ensures err { OnErr result (records.new.items ≡ records.old.items) }
{
    let after = records.len() as u32 + 1;
    records.push(Record {
        start: token.start as u32,
        end: token.end as u32,
        after,
        content,
    })?;
    Ok(())
}

impl Records {
    pub fn new(alloc: Global) -> Self
        ensures { result ≡ [] }
    {
        Records {
            records: Vec::new(alloc),
            texts: Texts::new(alloc),
        }
    }

    /// How many trees there are.
    pub fn len(&self) -> usize
        ensures { result ≡ length self.now }
    {
        self.records.len()
    }

    /// Adds a list with no parts, which ends with its parenthesis.
    pub fn add_list(&mut self, token: Token) -> Result<(), AllocError>
        requires start { token.start < 2 ^ 32 }
        requires end { token.end < 2 ^ 32 }
        requires room { length self.old + 1 < 2 ^ 32 }
        ensures { OnOk result (self.new ≡ self.old ++ leaf ListBody token (length self.old) ∷ []) }
    {
        push(&mut self.records, token, Content::List)?;
        Ok(())
    }

    /// Adds an atom with its text.
    pub fn add_atom(&mut self, token: Token, text: &[u8]) -> Result<(), AllocError>
        requires start { token.start < 2 ^ 32 }
        requires end { token.end < 2 ^ 32 }
        requires room { length self.old + 1 < 2 ^ 32 }
        ensures { OnOk result (self.new ≡ self.old ++ leaf (AtomBody text.now) token (length self.old) ∷ []) }
    {
        let number = self.texts.number(text)?;
        push(&mut self.records, token, Content::Atom(number))?;
        Ok(())
    }

    /// Adds a quoted atom with the text between its bars.
    pub fn add_quoted(&mut self, token: Token, text: &[u8]) -> Result<(), AllocError>
        requires start { token.start < 2 ^ 32 }
        requires end { token.end < 2 ^ 32 }
        requires room { length self.old + 1 < 2 ^ 32 }
        ensures { OnOk result (self.new ≡ self.old ++ leaf (QuotedBody text.now) token (length self.old) ∷ []) }
    {
        let number = self.texts.number(text)?;
        push(&mut self.records, token, Content::Quoted(number))?;
        Ok(())
    }

    /// Ends a list at a place and behind the last of the trees.
    pub fn close(&mut self, i: usize, end: u64)
        requires below { i < length self.old }
        requires end { end < 2 ^ 32 }
        requires room { length self.old < 2 ^ 32 }
        ensures { self.new ≡ closed_at i (end, length self.old) self.old }
    {
        let after = self.records.len() as u32;
        let record = &mut self.records[i];
        record.end = end as u32;
        record.after = after;
    }

    /// The record of a number.
    pub fn record(&self, i: u32) -> Rec
        requires below { i < length self.now }
        requires small { length self.now < 2 ^ 32 }
        ensures { result ≡ rec_at self.now i }
    {
        let record = self.records[i as usize];
        Rec {
            start: record.start,
            end: record.end,
            kind: record.content.kind(),
            first: i + 1,
            after: record.after,
        }
    }

    /// The text of an atom, for a quoted one without its bars.
    pub fn text(&self, i: u32) -> Option<&[u8]>
        requires { i < length self.now }
        ensures { MatchOption result (body_text (kept_at self.now i).body ≡ None) (λ text. body_text (kept_at self.now i).body ≡ Some text.now) }
    {
        match self.records[i as usize].content {
            Content::List => None,
            Content::Atom(number) => Some(self.texts.text(number)),
            Content::Quoted(number) => Some(self.texts.text(number)),
        }
    }
}
