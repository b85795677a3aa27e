//! The words of the grammar.
ghost use Rattle.std.specs.Prelude.{◌≡◌};
ghost use Rattle.goal_text.specs.Forms.{divides, is_minus};
ghost use Rattle.goal_text.specs.Lexicon.{word_of};
ghost use Rattle.goal_text.specs.Operations.{takes};

/// A word that makes a term of terms.
#[derive(Clone, Copy, Debug, PartialEq, Eq)]
pub enum Operator {
    Not,
    And,
    Or,
    Implies,
    Equals,
    Distinct,
    Xor,
    Ite,
    Plus,
    Times,
    Minus,
    AtMost,
    Less,
    AtLeast,
    Greater,
    Div,
    Mod,
}

/// A word that binds variables.
#[derive(Clone, Copy, Debug, PartialEq, Eq)]
pub enum Binder {
    Forall,
    Exists,
    Lambda,
}

/// A word that stands at the head of a term's list.
#[derive(Clone, Copy, Debug, PartialEq, Eq)]
pub enum Word {
    Applies(Operator),
    Binds(Binder),
    /// The word of `(as c T)`.
    Ascribes,
}

/// The word that a text is.
#[tactic(auto, unfolding(crate::specs::Lexicon::word_of))]
pub fn word_in(text: &[u8]) -> Option<Word>
    ensures { result ≡ word_of text.now }
{
    if text == b"not".as_slice() {
        Some(Word::Applies(Operator::Not))
    } else if text == b"and".as_slice() {
        Some(Word::Applies(Operator::And))
    } else if text == b"or".as_slice() {
        Some(Word::Applies(Operator::Or))
    } else if text == b"=>".as_slice() {
        Some(Word::Applies(Operator::Implies))
    } else if text == b"=".as_slice() {
        Some(Word::Applies(Operator::Equals))
    } else if text == b"distinct".as_slice() {
        Some(Word::Applies(Operator::Distinct))
    } else if text == b"xor".as_slice() {
        Some(Word::Applies(Operator::Xor))
    } else if text == b"ite".as_slice() {
        Some(Word::Applies(Operator::Ite))
    } else if text == b"+".as_slice() {
        Some(Word::Applies(Operator::Plus))
    } else if text == b"*".as_slice() {
        Some(Word::Applies(Operator::Times))
    } else if text == b"-".as_slice() {
        Some(Word::Applies(Operator::Minus))
    } else if text == b"<=".as_slice() {
        Some(Word::Applies(Operator::AtMost))
    } else if text == b"<".as_slice() {
        Some(Word::Applies(Operator::Less))
    } else if text == b">=".as_slice() {
        Some(Word::Applies(Operator::AtLeast))
    } else if text == b">".as_slice() {
        Some(Word::Applies(Operator::Greater))
    } else if text == b"div".as_slice() {
        Some(Word::Applies(Operator::Div))
    } else if text == b"mod".as_slice() {
        Some(Word::Applies(Operator::Mod))
    } else if text == b"forall".as_slice() {
        Some(Word::Binds(Binder::Forall))
    } else if text == b"exists".as_slice() {
        Some(Word::Binds(Binder::Exists))
    } else if text == b"lambda".as_slice() {
        Some(Word::Binds(Binder::Lambda))
    } else if text == b"as".as_slice() {
        Some(Word::Ascribes)
    } else {
        None
    }
}

impl Operator {
    /// Whether it takes so many parts.
    pub fn takes(self, n: u32) -> bool
        ensures { result ≡ takes self n }
    {
        match self {
            Operator::Not => n == 1,
            Operator::And => 0 < n,
            Operator::Or => 0 < n,
            Operator::Implies => 1 < n,
            Operator::Equals => 1 < n,
            Operator::Distinct => 1 < n,
            Operator::Xor => n == 2,
            Operator::Ite => n == 3,
            Operator::Plus => 1 < n,
            Operator::Times => 1 < n,
            Operator::Minus => 0 < n,
            Operator::AtMost => 1 < n,
            Operator::Less => 1 < n,
            Operator::AtLeast => n == 2,
            Operator::Greater => n == 2,
            Operator::Div => n == 2,
            Operator::Mod => n == 2,
        }
    }

    /// Whether it is the minus.
    pub fn is_minus(self) -> bool
        ensures { result ≡ is_minus self }
    {
        matches!(self, Operator::Minus)
    }

    /// Whether its second part is a number from 1.
    pub fn divides(self) -> bool
        ensures { result ≡ divides self }
    {
        matches!(self, Operator::Div | Operator::Mod)
    }
}
