ghost use Rattle.std.specs.Prelude.{◌≡◌, ◌<◌, ◌≤◌, ◌+◌, ◌∷◌, ◌^◌, List, reverse, length, OnOk};
ghost use Rattle.sexp.specs.declared.token.Token.{Token};
ghost use Rattle.sexp.specs.Records.{grown, AllBelow, opens_after};
ghost use Rattle.sexp.specs.Spans.{least};

use crate::records::Records;
use crate::token::{Token, TokenKind};
use std::alloc::AllocError;

/// Adds a token of the bytes to the records, the numbers of the open lists being given.
pub fn add_token(
    records: &mut Records,
    lists: &mut Vec<usize>,
    bytes: &[u8],
    token: Token,
) -> Result<(), AllocError>
    requires below { AllBelow (reverse lists.old.items) (length records.old) }
    requires within { token.kind ≡ TokenKind.Close → 0 < length lists.old.items }
    requires wide { token.start + least token.kind ≤ token.end }
    requires bytes { token.end ≤ length bytes.now }
    requires small { length bytes.now < 2 ^ 32 }
    requires room { length records.old + 1 < 2 ^ 32 }
    ensures grown { OnOk result ((ts : List Token) → grown bytes.now records.old (reverse lists.old.items) (token ∷ ts) ≡ grown bytes.now records.new (reverse lists.new.items) ts) }
    ensures below { OnOk result (AllBelow (reverse lists.new.items) (length records.new)) }
    ensures lists { OnOk result (length lists.new.items ≡ opens_after token.kind (length lists.old.items)) }
    ensures records { OnOk result (length records.new ≤ length records.old + 1) }
{
    let start = token.start as usize;
    let end = token.end as usize;
    match token.kind {
        TokenKind::Open => {
            let n = records.len();
            records.add_list(token)?;
            lists.push(n)?;
            Ok(())
        }
        TokenKind::Close => {
            if let Some(i) = lists.pop() {
                records.close(i, token.end);
            }
            Ok(())
        }
        TokenKind::Atom => {
            records.add_atom(token, &bytes[start..end])?;
            Ok(())
        }
        TokenKind::Quoted => {
            records.add_quoted(token, &bytes[start + 1..end - 1])?;
            Ok(())
        }
    }
}
