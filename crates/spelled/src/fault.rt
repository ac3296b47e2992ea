//! Why words or calls gave no sheet.
ghost use Rattle.std.specs.Prelude.{◌≡◌};
ghost use Rattle.spelled.specs.Faults.{spelled_fault};
ghost use Rattle.spelled.specs.declared.fault.SpelledFault.TheVariants.{Memory};
ghost use Rattle.spelled.specs.declared.fault.WholeFault.TheVariants.{Refused as WholeRefused, Memory as WholeMemory};

use filling::FillFault;
use sheet::Refused;
use std::alloc::{AllocError, AllocFailed};
use table::Parts;

/// Why calls gave no sheet.
#[derive(Clone, Copy, PartialEq, Eq, Debug)]
pub enum WholeFault {
    /// Some call is refused, so that no sheet within the limits is told.
    Refused,
    Memory,
}

impl From<FillFault> for WholeFault {
    ghost from_gives = { λ _ r. r ≡ WholeRefused };

    fn from(_fault: FillFault) -> WholeFault {
        WholeFault::Refused
    }
}

impl From<Refused<Parts>> for WholeFault {
    ghost from_gives = { λ _ r. r ≡ WholeRefused };

    fn from(_refused: Refused<Parts>) -> WholeFault {
        WholeFault::Refused
    }
}

// By hand: what a derive writes has no contract, and callers promise what becomes of want of memory.
impl From<AllocError> for WholeFault {
    ghost from_gives = { λ _ r. r ≡ WholeMemory };

    fn from(_e: AllocError) -> WholeFault {
        WholeFault::Memory
    }
}

/// Why words gave no sheet.
#[derive(Clone, Copy, PartialEq, Eq, Debug)]
pub enum SpelledFault {
    /// A word is no token, or the brackets do not match.
    NotASheet,
    /// The sheet breaks a limit, or its texts together have more than 65,535 bytes, which is all that counts of a text.
    Lawless,
    Memory,
}

impl From<WholeFault> for SpelledFault {
    ghost from_gives = { λ fault r. r ≡ spelled_fault fault };

    fn from(fault: WholeFault) -> SpelledFault {
        match fault {
            WholeFault::Refused => SpelledFault::Lawless,
            WholeFault::Memory => SpelledFault::Memory,
        }
    }
}

impl From<AllocError> for SpelledFault {
    ghost from_gives = { λ _ r. r ≡ Memory };

    fn from(_e: AllocError) -> SpelledFault {
        SpelledFault::Memory
    }
}

impl<T: Drop> From<AllocFailed<T>> for SpelledFault {
    ghost from_gives = { λ _ r. r ≡ Memory };

    fn from(_e: AllocFailed<T>) -> SpelledFault {
        SpelledFault::Memory
    }
}
