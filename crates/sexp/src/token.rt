/// What a token is.
#[derive(Clone, Copy, Debug, PartialEq, Eq)]
pub enum TokenKind {
    /// An opening parenthesis.
    Open,
    /// A closing parenthesis.
    Close,
    /// A run of bytes 0x21 to 0x7E without parentheses, `;`, `|` and `"`.
    Atom,
    /// Two bars and the bytes between them: 0x20 to 0x7E, tab, CR and LF without `|` and `\`.
    Quoted,
}

/// A token: the place of its first byte and that behind its last one, counted from 0 in the whole text. The bars of
/// a quoted atom belong to it.
#[derive(Clone, Copy, Debug, PartialEq, Eq)]
pub struct Token {
    pub start: u64,
    pub end: u64,
    pub kind: TokenKind,
}

/// What a reader answers.
#[derive(Clone, Copy, Debug, PartialEq, Eq)]
pub enum Next {
    Token(Token),
    /// The bytes fed so far don't end the next token, or don't tell yet whether it is within too many lists.
    More,
    /// The text is whole and has no more tokens.
    End,
}

/// Why a text isn't read, with the place.
#[derive(Clone, Copy, Debug, PartialEq, Eq)]
pub enum SexpFault {
    /// A byte that may not stand there.
    BadByte(u64),
    /// The last opening parenthesis or bar that isn't closed. Goes behind each other fault.
    Unclosed(u64),
    /// A closing parenthesis without an opening one.
    Unopened(u64),
    /// The opening parenthesis of a list whose content would be within more than 2,000 lists, a list whose first
    /// token is the atom `let` counting nothing.
    TooDeep(u64),
    /// The text has more bytes than this. Goes before each other fault.
    TooLong(u64),
    Memory,
}
