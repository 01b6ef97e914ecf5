// Why bytes are no bencoded value.
ghost use Rattle.std.specs.Prelude.{◌≡◌};
ghost use Rattle.bencode_core.specs.declared.fault.BenErr.TheVariants.{NoMemory};

use std::alloc::{AllocError, AllocFailed};
use thiserror::Error;

/// The first fault from left to right, and at which byte it stands.
#[derive(Clone, Copy, Debug, PartialEq, Eq, Error)]
pub enum BenErr {
    /// None of what may stand here is spelled: a value, a key or an "e". A string that is cut and a key that doesn't
    /// ascend are faulted at their first byte.
    #[error("wrong at byte {at}")]
    Wrong { at: u32 },
    /// A value stands in a hundred others.
    #[error("too deep at byte {at}")]
    TooDeep { at: u32 },
    /// An integer has more than 64 bits with its sign.
    #[error("too wide an integer at byte {at}")]
    TooWide { at: u32 },
    /// A byte follows the value.
    #[error("more bytes from byte {at} on")]
    Trailing { at: u32 },
    #[error("out of memory")]
    NoMemory,
}

impl From<AllocError> for BenErr {
    ghost from_gives = { λ _ e. e ≡ NoMemory };

    fn from(_: AllocError) -> Self {
        BenErr::NoMemory
    }
}

impl<T: Drop> From<AllocFailed<T>> for BenErr {
    ghost from_gives = { λ _ e. e ≡ NoMemory };

    fn from(_: AllocFailed<T>) -> Self {
        BenErr::NoMemory
    }
}
