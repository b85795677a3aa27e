//! The rules, by families, each family in a module of its own.
ghost use Rattle.std.specs.Prelude.{◌≡◌};

mod conjunction;
mod disjunction;
mod equality;
mod hypothesis;
mod implication;
mod negation;
mod quantifier;
mod types;

use std::alloc::AllocError;

/// Why a rule wasn't applied.
#[derive(Clone, Copy, PartialEq, Eq, Debug)]
pub enum RuleFault {
    /// The rule's condition fails.
    Shape,
    /// There is no memory for what it makes.
    Memory,
}

impl From<AllocError> for RuleFault {
    ghost use Rattle.lcf_kernel.specs.declared.rules.RuleFault.TheVariants.{Memory};
    ghost use Rattle.std.specs.Prelude.{◌≡◌};

    ghost from_gives = { λ e f. f ≡ Memory };

    fn from(_: AllocError) -> RuleFault {
        RuleFault::Memory
    }
}
