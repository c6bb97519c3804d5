//! Why a line was not read.
ghost use Rattle.std.specs.Prelude.{◌≡◌};
ghost use Rattle.script.specs.Troubles.{trouble_of};
ghost use Rattle.script.specs.declared.trouble.Trouble.TheVariants.{OutOfMemory};

use hex::FromHexError;
use std::alloc::AllocFailed;

/// Why a line was not read.
#[derive(Clone, Copy, PartialEq, Eq, Debug)]
pub enum Trouble {
    /// It says nothing that a script can say.
    CannotRead,
    /// There is no memory for what it says.
    OutOfMemory,
}

impl From<FromHexError> for Trouble {
    ghost from_gives = { λ e r. r ≡ trouble_of e };

    fn from(error: FromHexError) -> Trouble {
        match error {
            FromHexError::OutOfMemory => Trouble::OutOfMemory,
            _ => Trouble::CannotRead,
        }
    }
}

impl<T: Drop> From<AllocFailed<T>> for Trouble {
    ghost from_gives = { λ _ r. r ≡ OutOfMemory };

    fn from(_: AllocFailed<T>) -> Trouble {
        Trouble::OutOfMemory
    }
}
