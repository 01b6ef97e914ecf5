// Why bytes are no control file.
ghost use Rattle.std.specs.Prelude.{◌≡◌};
ghost use Rattle.control_file.specs.declared.fault.ControlErr.TheVariants.{NoMemory};

use std::alloc::{AllocError, AllocFailed};
use thiserror::Error;

/// Why bytes are no control file.
#[derive(Clone, Copy, Debug, PartialEq, Eq, Error)]
pub enum ControlErr {
    /// The place of the first field that breaks its rule or is cut short, or of the first byte behind the last field.
    #[error("the control file is wrong at byte {at}")]
    Wrong { at: u64 },
    /// Another version than 0 and 1.
    #[error("control files of version {0} can't be read")]
    Version(u16),
    #[error("out of memory")]
    NoMemory,
}

impl From<AllocError> for ControlErr {
    ghost from_gives = { λ _ e. e ≡ NoMemory };

    fn from(_: AllocError) -> Self {
        ControlErr::NoMemory
    }
}

impl<T: Drop> From<AllocFailed<T>> for ControlErr {
    ghost from_gives = { λ _ e. e ≡ NoMemory };

    fn from(_: AllocFailed<T>) -> Self {
        ControlErr::NoMemory
    }
}
