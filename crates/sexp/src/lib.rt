//! Tokens and trees of texts in parentheses: atoms, quoted atoms between bars, and lists. White space is space, tab,
//! CR and LF. A comment goes from `;` to LF and may hold any bytes.
#![tactic(auto)]

mod answer;
mod bytes;
mod forest;
mod grow;
mod lexer;
mod lexis;
mod look;
mod nest;
mod reader;
mod rec;
mod records;
mod scan;
mod texts;
mod token;
mod tokens;

pub use forest::{Forest, read_forest};
pub use reader::Reader;
pub use rec::{Rec, RecKind};
pub use token::{Next, SexpFault, Token, TokenKind};
pub use tokens::read_tokens;
