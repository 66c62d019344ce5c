ghost use Rattle.std.specs.Prelude.{◌≡◌};
ghost use Rattle.star_io.specs.declared.input_error.InputError.TheVariants.{Read, NoMemory};

use crate::failed::Failed;
use crate::no_memory;
use crate::reader::NextError;
use std::alloc::{AllocError, AllocFailed};
use thiserror::Error;

/// Why an input isn't read to its end.
#[derive(Clone, Copy, Debug, PartialEq, Eq, Error)]
pub enum InputError {
    #[error("a read failed")]
    Read,
    /// A byte follows what is read at most.
    #[error("the input is too long")]
    TooMany,
    #[error("out of memory")]
    NoMemory,
}

impl From<Failed> for InputError {
    ghost from_gives = { λ _ e. e ≡ Read };

    fn from(_: Failed) -> Self {
        InputError::Read
    }
}

impl From<NextError> for InputError {
    ghost use Rattle.std.specs.Prelude.{◌≡◌};
    ghost use Rattle.star_io.specs.Reading.{input_error};

    ghost from_gives = { λ error e. e ≡ input_error error };

    fn from(error: NextError) -> Self {
        match error {
            NextError::Read => InputError::Read,
            NextError::NoMemory => InputError::NoMemory,
        }
    }
}

impl From<no_memory::NoMemory> for InputError {
    ghost from_gives = { λ _ e. e ≡ NoMemory };

    fn from(_: no_memory::NoMemory) -> Self {
        InputError::NoMemory
    }
}

impl From<AllocError> for InputError {
    ghost from_gives = { λ _ e. e ≡ NoMemory };

    fn from(_: AllocError) -> Self {
        InputError::NoMemory
    }
}

impl<T: Drop> From<AllocFailed<T>> for InputError {
    ghost from_gives = { λ _ e. e ≡ NoMemory };

    fn from(_: AllocFailed<T>) -> Self {
        InputError::NoMemory
    }
}
