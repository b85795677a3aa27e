//! Names, variables and numbers.
ghost use Rattle.std.specs.Prelude.{◌≡◌, ◌≤◌, ◌<◌, ◌^◌, ◌+◌, ◌-◌, ◌*◌, bytes_eq, true, MatchOption};
ghost use Rattle.std.specs.List.{list_all, list_any};
ghost use Rattle.goal_text.specs.Lexicon as lexicon;

use hol_terms::built_in;

fn is_letter(b: u8) -> bool
    ensures { result ≡ lexicon.is_letter b }
{
    matches!(b, b'A'..=b'Z' | b'a'..=b'z')
}

fn is_digit(b: u8) -> bool
    ensures { result ≡ lexicon.is_digit b }
{
    matches!(b, b'0'..=b'9')
}

fn is_inner(b: u8) -> bool
    ensures { result ≡ lexicon.is_inner b }
{
    is_letter(b) || is_digit(b) || b == b'_' || b == b'.'
}

/// Whether a text is a word of the grammar that names no constant.
fn is_other_word(text: &[u8]) -> bool
    ensures { result ≡ list_any (bytes_eq text.now) lexicon.other_words }
{
    text == b"distinct".as_slice()
        || text == b"xor".as_slice()
        || text == b"forall".as_slice()
        || text == b"exists".as_slice()
        || text == b"lambda".as_slice()
        || text == b"as".as_slice()
        || text == b"let".as_slice()
        || text == b"Bool".as_slice()
        || text == b"Int".as_slice()
}

/// Whether a text is a word that a file neither declares nor binds.
fn is_reserved(text: &[u8]) -> bool
    ensures { result ≡ lexicon.is_reserved text.now }
{
    built_in(text) || is_other_word(text)
}

fn all_inner(text: &[u8]) -> bool
    ensures { result ≡ list_all lexicon.is_inner text.now }
{
    for b in text {
        if !is_inner(*b) {
            return false;
        }
    }
    true
}

fn all_digits(text: &[u8]) -> bool
    ensures { result ≡ list_all lexicon.is_digit text.now }
{
    for b in text {
        if !is_digit(*b) {
            return false;
        }
    }
    true
}

/// Whether a text is a letter, and then letters, digits, `_` and `.`, at most 255 bytes in all.
fn has_name_form(text: &[u8]) -> bool
    ensures { result ≡ lexicon.has_name_form text.now }
{
    match text {
        [first, others @ ..] => is_letter(*first) && all_inner(others) && others.len() < 255,
        [] => false,
    }
}

/// Whether a text is a name that may be declared.
#[tactic(auto, unfolding(crate::specs::Lexicon::is_name))]
pub fn is_name(text: &[u8]) -> bool
    ensures { result ≡ lexicon.is_name text.now }
{
    has_name_form(text) && !is_reserved(text)
}

/// Whether a text has `?` in place of a name's first letter.
fn has_mark(text: &[u8]) -> bool
    ensures { result ≡ lexicon.has_mark text.now }
{
    match text {
        [first, others @ ..] => *first == b'?' && all_inner(others) && others.len() < 255,
        [] => false,
    }
}

/// Whether a text is a name that may be bound.
#[tactic(auto, unfolding(crate::specs::Lexicon::is_variable))]
pub fn is_variable(text: &[u8]) -> bool
    ensures { result ≡ lexicon.is_variable text.now }
{
    is_name(text) || has_mark(text)
}

/// Whether a text is a quote and a name.
#[tactic(auto, unfolding(crate::specs::Lexicon::is_type_variable))]
pub fn is_type_variable(text: &[u8]) -> bool
    ensures { result ≡ lexicon.is_type_variable text.now }
{
    match text {
        [first, others @ ..] => *first == b'\'' && has_name_form(others),
        [] => false,
    }
}

/// Whether a text is a run of digits.
#[tactic(auto, unfolding(crate::specs::Lexicon::is_number))]
pub fn is_number(text: &[u8]) -> bool
    ensures { result ≡ lexicon.is_number text.now }
{
    match text {
        [first, others @ ..] => is_digit(*first) && all_digits(others),
        [] => false,
    }
}

/// The numbers that are read are below 2^127.
const LIMIT: u128 = 1 << 127;

/// The number n with one digit more, where it is below 2^127.
fn with_digit(n: u128, digit: u8) -> Option<u128>
    requires { lexicon.is_digit digit ≡ true }
    ensures { MatchOption result (2 ^ 127 ≤ 10 * n + (digit - 48)) (λ m. (m ≡ 10 * n + (digit - 48)) × (m < 2 ^ 127)) }
{
    let tens = n.checked_mul(10)?;
    let m = tens.checked_add((digit - b'0') as u128)?;
    if m < LIMIT { Some(m) } else { None }
}

/// The number that digits write, where it is below 2^127.
#[tactic(auto, unfolding(crate::specs::Lexicon::is_number, crate::specs::Lexicon::value_of))]
pub fn value(text: &[u8]) -> Option<u128>
    requires { lexicon.is_number text.now ≡ true }
    ensures { MatchOption result (2 ^ 127 ≤ lexicon.value_of text.now) (λ n. (n ≡ lexicon.value_of text.now) × (n < 2 ^ 127)) }
{
    let mut n: u128 = 0;
    for digit in text {
        match with_digit(n, *digit) {
            Some(m) => n = m,
            None => return None,
        }
    }
    Some(n)
}
