ghost use Rattle.std.specs.Prelude.{◌≡◌, ◌≢◌, List, [], ◌+◌, ◌<◌, ◌≤◌, ◌^◌, ◌⊎◌, true, length, reverse, MatchOption, Some, None, Ok, Err, IfOk, IfErr, OnOk};
ghost use Rattle.sexp.specs.Tree.{AtomTree, no_trees, more_trees, place, text_of};
ghost use Rattle.sexp.specs.Forest.{kept_at, tree_at, trees_at, after_of, rec_at, kind_of, Tells, HasTree, IsRun};
ghost use Rattle.sexp.specs.Reading.{count_fed, is_whole, KeepsFed};
ghost use Rattle.sexp.specs.Growing.{GrowsFrom};
ghost use Rattle.sexp.specs.TextTrees.{forest_of, records_of, unless_long, Gives};
ghost use Rattle.sexp.specs.TreeBytes.{AreTreesOf};

use crate::grow::add_token;
use crate::reader::Reader;
use crate::rec::{Rec, RecKind};
use crate::records::Records;
use crate::token::{Next, SexpFault};
use std::alloc::Global;
use std::marker::Model;

/// The trees of a text, by number in text order, a list standing before its parts.
pub struct Forest {
    records: Records,
}

impl Drop for Forest {
    fn drop(self) {
        let Forest { records: _ } = self;
    }
}

impl Model for Forest {
    ghost use Rattle.std.specs.Prelude.{List, length, ◌<◌, ◌^◌};
    ghost use Rattle.sexp.specs.Forest.{Kept, IsForest};

    ghost Value = { List Kept };

    ghost view = { λ f. f.records };

    ghost invariant = { λ f. IsForest f.records × (length f.records < 2 ^ 32) };
}

/// Adds the tokens that a reader has to answer to the records of the text, of which it was fed a front part.
fn grow(
    reader: &mut Reader,
    records: &mut Records,
    lists: &mut Vec<usize>,
    bytes: &[u8],
) -> Result<(), SexpFault>
    requires whole { is_whole reader.old ≡ true → count_fed reader.old ≡ length bytes.now }
    requires small { length bytes.now < 2 ^ 32 }
    requires grows { GrowsFrom bytes.now reader.old records.old (reverse lists.old.items) }
    ensures grows { OnOk result (GrowsFrom bytes.now reader.new records.new (reverse lists.new.items)) }
    ensures keeps { KeepsFed reader.old reader.new }
    ensures all { OnOk result (is_whole reader.old ≡ true → records_of bytes.now ≡ Ok records.new) }
    ensures fault { IfErr result (λ fault. fault ≢ SexpFault.Memory → records_of bytes.now ≡ Err fault) }
{
    'tokens: loop {
        match reader.next() {
            Ok(Next::Token(token)) => match add_token(records, lists, bytes, token) {
                Ok(()) => {}
                Err(_) => return Err(SexpFault::Memory),
            },
            Ok(Next::End) => return Ok(()),
            Ok(Next::More) => return Ok(()),
            Err(fault) => return Err(fault),
        }
    }
}

/// How many bytes a reader takes at once: so few that they stay near the processor.
const PIECE: usize = 65_536;

/// The records of a text.
fn read_records(alloc: Global, bytes: &[u8], most: u64) -> Result<Records, SexpFault>
    requires fits { length bytes.now ≤ most }
    requires small { most < 2 ^ 32 }
    ensures reads { Gives (λ records. records) result (records_of bytes.now) }
    ensures small { IfOk result (λ records. length records ≤ length bytes.now) }
{
    let mut reader = Reader::new(alloc, most);
    let mut records = Records::new(alloc);
    let mut lists = Vec::new(alloc);
    let mut fed = 0;
    'pieces: while fed < bytes.len() {
        let size = PIECE.min(bytes.len() - fed);
        match reader.feed(&bytes[fed..fed + size]) {
            Ok(()) => {}
            Err(_) => return Err(SexpFault::Memory),
        }
        fed += size;
        grow(&mut reader, &mut records, &mut lists, bytes)?;
    }
    reader.finish();
    grow(&mut reader, &mut records, &mut lists, bytes)?;
    Ok(records)
}

/// Reads the trees of a text of at most `most` bytes. Each is what stands in the text where its record says, a list from its
/// opening parenthesis up to behind the one that closes it.
pub fn read_forest(alloc: Global, bytes: &[u8], most: u64) -> Result<Forest, SexpFault>
    requires { most < 2 ^ 32 }
    ensures trees { Gives (λ forest. trees_at forest 0 (length forest)) result (unless_long most bytes.now (forest_of bytes.now)) }
    ensures records { Gives (λ forest. forest) result (unless_long most bytes.now (records_of bytes.now)) }
    ensures bytes { IfOk result (λ forest. AreTreesOf bytes.now forest) }
{
    if bytes.len() as u64 > most {
        return Err(SexpFault::TooLong(most));
    }
    match read_records(alloc, bytes, most) {
        Ok(records) => Ok(Forest { records }),
        Err(fault) => Err(fault),
    }
}

impl Forest {
    /// How many trees there are, those within others counted. The text's own trees are those from 0 up to this
    /// number.
    pub fn len(&self) -> u32
        ensures len { result ≡ length self.now }
        ensures run { IsRun self.now 0 result }
    {
        self.records.len() as u32
    }

    /// The record of a tree.
    pub fn record(&self, i: u32) -> Rec
        requires { HasTree self.now i }
        ensures { result ≡ rec_at self.now i }
    {
        self.records.record(i)
    }

    /// Where a tree begins.
    pub fn start(&self, i: u32) -> u32
        requires { HasTree self.now i }
        ensures { result ≡ place (tree_at self.now i) }
    {
        self.records.record(i).start
    }

    /// The number of the first record past a tree. A list's parts are the trees from `i + 1` up to it.
    pub fn after(&self, i: u32) -> u32
        requires { HasTree self.now i }
        ensures after { result ≡ after_of self.now i }
        ensures parts { IsRun self.now (i + 1) result }
    {
        self.records.record(i).after
    }

    /// Whether a tree is a list, an atom or a quoted atom.
    pub fn kind(&self, i: u32) -> RecKind
        requires { HasTree self.now i }
        ensures kind { result ≡ kind_of (kept_at self.now i).body }
        ensures tree { Tells result (tree_at self.now i) (trees_at self.now (i + 1) (after_of self.now i)) }
    {
        self.records.record(i).kind
    }

    /// The text of an atom, for a quoted one without its bars.
    pub fn text(&self, i: u32) -> &[u8]
        requires tree { HasTree self.now i }
        requires atom { kind_of (kept_at self.now i).body ≢ RecKind.List }
        ensures { text_of (tree_at self.now i) ≡ Some result.now }
    {
        match self.records.text(i) {
            Some(text) => text,
            None => &[],
        }
    }

    /// The text of an atom that isn't quoted.
    pub fn atom(&self, i: u32) -> Option<&[u8]>
        requires { HasTree self.now i }
        ensures { MatchOption result
            (Tells RecKind.List (tree_at self.now i) (trees_at self.now (i + 1) (after_of self.now i)) ⊎ Tells RecKind.Quoted (tree_at self.now i) no_trees)
            (λ text. tree_at self.now i ≡ AtomTree (place (tree_at self.now i)) text.now) }
    {
        match self.records.record(i).kind {
            RecKind::Atom => self.records.text(i),
            RecKind::List => None,
            RecKind::Quoted => None,
        }
    }

    /// The text of an atom, quoted or not.
    pub fn name(&self, i: u32) -> Option<&[u8]>
        requires { HasTree self.now i }
        ensures { MatchOption result
            (Tells RecKind.List (tree_at self.now i) (trees_at self.now (i + 1) (after_of self.now i)))
            (λ text. text_of (tree_at self.now i) ≡ Some text.now) }
    {
        self.records.text(i)
    }

    /// The number behind the first of the trees from `i` up to `end`, or nothing where there are none.
    pub fn next(&self, i: u32, end: u32) -> Option<u32>
        requires { IsRun self.now i end }
        ensures { MatchOption result
            (trees_at self.now i end ≡ no_trees)
            (λ after. (trees_at self.now i end ≡ more_trees (tree_at self.now i) (trees_at self.now after end)) × HasTree self.now i × (after ≡ after_of self.now i) × (i < after) × (after ≤ end) × IsRun self.now after end) }
    {
        if i < end {
            Some(self.records.record(i).after)
        } else {
            None
        }
    }
}
