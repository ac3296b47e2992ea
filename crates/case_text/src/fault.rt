//! Why a piece of a line is not read.
ghost use Rattle.std.specs.Prelude.{◌≡◌};
ghost use Rattle.case_text.specs.Faults.{decode_fault};
ghost use Rattle.case_text.specs.declared.fault.LineFault.TheVariants.{Memory};

use hex::FromHexError;
use std::alloc::{AllocError, AllocFailed};

/// Why a piece of a line is not read.
#[derive(Clone, Copy, PartialEq, Eq, Debug)]
pub enum LineFault {
    /// It says nothing that is known.
    Unknown,
    Memory,
}

// By hand: what a derive writes has no contract, and callers promise what becomes of want of memory.
impl From<AllocError> for LineFault {
    ghost from_gives = { λ _ r. r ≡ Memory };

    fn from(_e: AllocError) -> LineFault {
        LineFault::Memory
    }
}

impl<T: Drop> From<AllocFailed<T>> for LineFault {
    ghost from_gives = { λ _ r. r ≡ Memory };

    fn from(_e: AllocFailed<T>) -> LineFault {
        LineFault::Memory
    }
}

impl From<FromHexError> for LineFault {
    ghost from_gives = { λ e r. r ≡ decode_fault e };

    fn from(e: FromHexError) -> LineFault {
        match e {
            FromHexError::OutOfMemory => LineFault::Memory,
            _ => LineFault::Unknown,
        }
    }
}
