//! Why a goal file is refused.
ghost use Rattle.std.specs.Prelude.{◌≡◌, Err};
ghost use Rattle.goal_text.specs.declared.fault.GoalFailure.TheVariants.{Memory as NoMemory};
ghost use Rattle.goal_text.specs.KindNames.{kind_name};

use std::alloc::{AllocError, AllocFailed};

/// What is wrong with a goal file.
#[derive(Clone, Copy, Debug, PartialEq, Eq)]
pub enum GoalKind {
    /// The file has more than 4 MiB.
    TooLong,
    /// A byte that may not stand there.
    BadByte,
    /// A closing parenthesis without an opening one.
    Unopened,
    /// A list within 2,000 others.
    TooDeep,
    /// An opening parenthesis or bar that isn't closed.
    Unclosed,
    /// The grammar allows no such item, list or atom there.
    Syntax,
    /// A number of 2^127 or more.
    Number,
    /// A name that stands for nothing.
    UnknownName,
    /// A name is declared a second time.
    DeclaredTwice,
    /// The parts of a form don't fit by their types.
    IllTyped,
    /// A constant's type variable is open.
    FreeTypeVariable,
    /// A fact or a goal isn't of type Bool.
    NotBool,
    /// There is a second goal.
    TwoGoals,
    /// There is no goal.
    NoGoal,
}

impl GoalKind {
    /// The word by which an output line tells the kind.
    pub fn name(self) -> &'static str
        ensures { result.now ≡ kind_name self }
    {
        match self {
            GoalKind::TooLong => "TooLong",
            GoalKind::BadByte => "BadByte",
            GoalKind::Unopened => "Unopened",
            GoalKind::TooDeep => "TooDeep",
            GoalKind::Unclosed => "Unclosed",
            GoalKind::Syntax => "Syntax",
            GoalKind::Number => "Number",
            GoalKind::UnknownName => "UnknownName",
            GoalKind::DeclaredTwice => "DeclaredTwice",
            GoalKind::IllTyped => "IllTyped",
            GoalKind::FreeTypeVariable => "FreeTypeVariable",
            GoalKind::NotBool => "NotBool",
            GoalKind::TwoGoals => "TwoGoals",
            GoalKind::NoGoal => "NoGoal",
        }
    }
}

/// The first fault of a goal file: the byte at which it stands, counted from 0, and what is wrong.
#[derive(Clone, Copy, Debug, PartialEq, Eq)]
pub struct GoalFault {
    pub at: u64,
    pub kind: GoalKind,
}

/// Why no problem was read.
#[derive(Clone, Copy, Debug, PartialEq, Eq)]
pub enum GoalFailure {
    /// The file has a fault.
    Refused(GoalFault),
    /// Memory ran out.
    Memory,
}

impl From<AllocError> for GoalFailure {
    ghost from_gives = { λ _ e. e ≡ NoMemory };

    fn from(_e: AllocError) -> GoalFailure {
        GoalFailure::Memory
    }
}

impl<T: Drop> From<AllocFailed<T>> for GoalFailure {
    ghost from_gives = { λ _ e. e ≡ NoMemory };

    fn from(_e: AllocFailed<T>) -> GoalFailure {
        GoalFailure::Memory
    }
}

/// The fault of the kind at the place.
pub fn refuse<T>(at: u32, kind: GoalKind) -> Result<T, GoalFailure>
    ensures { result ≡ Err (GoalFailure.Refused (record { at = at; kind = kind })) }
{
    Err(GoalFailure::Refused(GoalFault {
        at: at as u64,
        kind,
    }))
}
