//! What became of a node.
ghost use Rattle.std.specs.Prelude.{◌≡◌};
ghost use Rattle.proof_plan.specs.States.{is_proved};

use crate::why::Why;
use std::alloc::AllocError;

/// What became of a node of a plan.
#[derive(Clone, Copy, PartialEq, Eq, Debug)]
pub enum State {
    /// Nothing yet.
    Open,
    /// It was replayed.
    Plain,
    /// It is an instance of a theorem of the net.
    ByNet,
    /// Its rule doesn't accept it.
    Failed(Why),
    /// This premise, the first of its premises that isn't proved, stands in its way.
    Blocked(u64),
    /// There was no memory for it.
    NoMemory,
}

impl State {
    /// Whether the node is proved.
    pub fn is_proved(self) -> bool
        ensures { result ≡ is_proved self }
    {
        match self {
            State::Plain => true,
            State::ByNet => true,
            State::Open => false,
            State::Failed(_) => false,
            State::Blocked(_) => false,
            State::NoMemory => false,
        }
    }
}

/// Why a replay gives no theorem.
#[derive(Clone, Copy, PartialEq, Eq, Debug)]
pub enum ReplayFault {
    /// The rule doesn't accept the node.
    Why(Why),
    /// There is no memory.
    Memory,
}

impl From<AllocError> for ReplayFault {
    ghost use Rattle.proof_plan.specs.declared.state.ReplayFault.TheVariants.{Memory};
    ghost use Rattle.std.specs.Prelude.{◌≡◌};

    ghost from_gives = { λ e f. f ≡ Memory };

    fn from(_: AllocError) -> ReplayFault {
        ReplayFault::Memory
    }
}
