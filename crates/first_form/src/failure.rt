ghost use Rattle.std.specs.Prelude.{◌≡◌};
ghost use Rattle.first_form.specs.declared.failure.FormFailure.TheVariants.{Memory as NoMemory};

use std::alloc::{AllocError, AllocFailed};

/// Why a file gave nothing: it is outside its form, or memory ran out.
#[derive(Clone, Copy, Debug, PartialEq, Eq)]
pub enum FormFailure {
    Refused,
    Memory,
}

impl From<AllocError> for FormFailure {
    ghost from_gives = { λ _ e. e ≡ NoMemory };

    fn from(_e: AllocError) -> FormFailure {
        FormFailure::Memory
    }
}

impl<T: Drop> From<AllocFailed<T>> for FormFailure {
    ghost from_gives = { λ _ e. e ≡ NoMemory };

    fn from(_e: AllocFailed<T>) -> FormFailure {
        FormFailure::Memory
    }
}
