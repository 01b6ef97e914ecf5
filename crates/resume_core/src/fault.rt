// Why a call of the store failed.
ghost use Rattle.std.specs.Prelude.{◌≡◌};
ghost use Rattle.resume_core.specs.Causes.{IsFailedBy};
ghost use Rattle.resume_core.specs.declared.fault.StoreErr.TheVariants.{NoMemory};

use dl_kinds::IoErr;
use std::alloc::{AllocError, AllocFailed};
use thiserror::Error;

/// Why a call of the store failed.
#[derive(Clone, Copy, Debug, PartialEq, Eq, Error)]
pub enum StoreErr {
    #[error("a fault of the disk")]
    Disk,
    #[error("out of memory")]
    NoMemory,
}

impl From<IoErr> for StoreErr {
    ghost from_gives = { IsFailedBy };

    fn from(err: IoErr) -> Self {
        match err {
            IoErr::Fault => StoreErr::Disk,
            IoErr::NoMemory => StoreErr::NoMemory,
        }
    }
}

impl From<AllocError> for StoreErr {
    ghost from_gives = { λ _ e. e ≡ NoMemory };

    fn from(_: AllocError) -> Self {
        StoreErr::NoMemory
    }
}

impl<T: Drop> From<AllocFailed<T>> for StoreErr {
    ghost from_gives = { λ _ e. e ≡ NoMemory };

    fn from(_: AllocFailed<T>) -> Self {
        StoreErr::NoMemory
    }
}
