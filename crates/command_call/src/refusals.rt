// Why a command line names no download.
ghost use Rattle.std.specs.Prelude.{◌≡◌};
ghost use Rattle.command_call.specs.declared.refusals.SourceErr.TheVariants.{NoMemory};

use metainfo::MetaErr;
use std::alloc::{AllocError, AllocFailed};
use thiserror::Error;

/// Why a command line names no download.
#[derive(Clone, Copy, Debug, PartialEq, Eq, Error)]
pub enum SourceErr {
    #[error("there is no such metainfo file")]
    Missing,
    /// The disk failed while the metainfo file was read.
    #[error("the metainfo file can't be read")]
    Fault,
    #[error("the metainfo file is too large")]
    TooLarge,
    /// The first rule that the bytes of the metainfo file break (BEP 3). Want of memory never stands in it.
    #[error("the metainfo file is wrong: {0}")]
    Meta(MetaErr),
    /// The metainfo file and the words name no `http` URL, or more than 256.
    #[error("there are {0} mirrors, and not 1 to 256")]
    Mirrors(u64),
    #[error("out of memory")]
    NoMemory,
}

impl From<AllocError> for SourceErr {
    ghost from_gives = { λ _ e. e ≡ NoMemory };

    fn from(_: AllocError) -> Self {
        SourceErr::NoMemory
    }
}

impl<T: Drop> From<AllocFailed<T>> for SourceErr {
    ghost from_gives = { λ _ e. e ≡ NoMemory };

    fn from(_: AllocFailed<T>) -> Self {
        SourceErr::NoMemory
    }
}
