// What is wrong with a word.
ghost use Rattle.std.specs.Prelude.{◌≡◌};
ghost use Rattle.text.specs.ByteTexts.{fault_of};
ghost use Rattle.text.specs.declared.fault.Fault.TheVariants.{NoMemory};

use hex::FromHexError;
use std::alloc::AllocFailed;
use thiserror::Error;

#[derive(Clone, Copy, Debug, PartialEq, Eq, Error)]
pub enum Fault {
    #[error("not a number")]
    NotANumber,
    #[error("a number out of its range")]
    OutOfRange,
    #[error("not a string of bytes")]
    NotBytes,
    #[error("an odd number of digits")]
    OddDigits,
    #[error("no memory")]
    NoMemory,
}

impl From<FromHexError> for Fault {
    ghost from_gives = { λ error r. r ≡ fault_of error };

    fn from(error: FromHexError) -> Fault {
        match error {
            FromHexError::InvalidHexCharacter { .. } | FromHexError::InvalidStringLength => {
                Fault::NotBytes
            }
            FromHexError::OddLength => Fault::OddDigits,
            FromHexError::OutOfMemory => Fault::NoMemory,
        }
    }
}

// For callers that gather values of their own.
impl<T: Drop> From<AllocFailed<T>> for Fault {
    ghost from_gives = { λ _ r. r ≡ NoMemory };

    fn from(_e: AllocFailed<T>) -> Fault {
        Fault::NoMemory
    }
}
