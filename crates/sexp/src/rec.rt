/// What a tree is.
#[derive(Clone, Copy, Debug, PartialEq, Eq)]
pub enum RecKind {
    List,
    Atom,
    /// An atom between bars.
    Quoted,
}

/// A tree of a text: `start` and `end` bound its bytes, `first` is the number of the record behind its own, with
/// which a list's parts begin, and `after` is the number of the first record past the tree.
#[derive(Clone, Copy, Debug, PartialEq, Eq)]
pub struct Rec {
    pub start: u32,
    pub end: u32,
    pub kind: RecKind,
    pub first: u32,
    pub after: u32,
}
