// What is wrong with a line.
ghost use Rattle.std.specs.Prelude.{◌≡◌};
ghost use Rattle.text.specs.declared.fault.Fault.TheVariants.{NoMemory};
ghost use Rattle.grammar.specs.declared.wrong.Wrong.TheVariants.{Word};

use std::alloc::{AllocError, AllocFailed};
use text::fault::Fault;
use thiserror::Error;

#[derive(Clone, Copy, Debug, PartialEq, Eq, Error)]
pub enum Wrong {
    #[error("unknown directive")]
    UnknownDirective,
    #[error("unknown make of drive")]
    UnknownMake,
    #[error("a word is missing")]
    MissingWord,
    #[error("a word too many")]
    SuperfluousWord,
    #[error("a field record has 12 bytes")]
    RecordLength,
    #[error("a bench directive after the cabinet line")]
    BenchAfterCabinet,
    #[error("a second cabinet line")]
    SecondCabinet,
    #[error("a cabinet directive before the cabinet line")]
    NoCabinet,
    #[error(transparent)]
    Word(Fault),
}

// By hand, since a clause names what comes of it.
impl From<Fault> for Wrong {
    ghost from_gives = { λ fault r. r ≡ Word fault };

    fn from(fault: Fault) -> Wrong {
        Wrong::Word(fault)
    }
}

// Memory may be wanting with a value that is handed back, and without one: the library has an error for each.
impl<T: Drop> From<AllocFailed<T>> for Wrong {
    ghost from_gives = { λ _ r. r ≡ Word NoMemory };

    fn from(_refused: AllocFailed<T>) -> Wrong {
        Wrong::Word(Fault::NoMemory)
    }
}

impl From<AllocError> for Wrong {
    ghost from_gives = { λ _ r. r ≡ Word NoMemory };

    fn from(_error: AllocError) -> Wrong {
        Wrong::Word(Fault::NoMemory)
    }
}
