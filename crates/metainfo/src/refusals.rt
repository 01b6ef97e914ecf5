// Why bytes are no metainfo file.
ghost use Rattle.std.specs.Prelude.{◌≡◌};
ghost use Rattle.metainfo.specs.declared.refusals.MetaErr.TheVariants.{NoMemory};

use bencode_core::BenErr;
use std::alloc::{AllocError, AllocFailed};
use thiserror::Error;

/// The keys that are looked for.
#[derive(Clone, Copy, Debug, PartialEq, Eq)]
pub enum Key {
    /// `info`
    Info,
    /// `name`
    Name,
    /// `piece length`
    PieceLength,
    /// `pieces`
    Pieces,
    /// `length`
    Length,
    /// `files`
    Files,
    /// `path`
    Path,
    /// `url-list`
    UrlList,
}

/// The first rule that the bytes break.
#[derive(Clone, Copy, Debug, PartialEq, Eq, Error)]
pub enum MetaErr {
    /// The bytes are no bencoded value. Want of memory never stands in it.
    #[error("no bencoded value: {0}")]
    Bencode(BenErr),
    #[error("there is no {0:?}")]
    Lacks(Key),
    /// The value of the key isn't of its kind.
    #[error("{0:?} is of the wrong kind")]
    BadKind(Key),
    /// The path of the file of this number, from 0, is bad, that of an earlier file, or one is a folder of the other.
    #[error("the path of file {0} is bad")]
    BadPath(u32),
    #[error("{have} digests for {want} pieces")]
    DigestCount { have: u32, want: u32 },
    /// The piece length, or the sum of the lengths, is outside the limits.
    #[error("{0:?} is outside the limits")]
    TooLarge(Key),
    /// The element of this number, from 0, of `url-list` is no string.
    #[error("element {0} of the list of URLs is no string")]
    BadSeed(u32),
    #[error("out of memory")]
    NoMemory,
}

impl From<AllocError> for MetaErr {
    ghost from_gives = { λ _ e. e ≡ NoMemory };

    fn from(_: AllocError) -> Self {
        MetaErr::NoMemory
    }
}

impl<T: Drop> From<AllocFailed<T>> for MetaErr {
    ghost from_gives = { λ _ e. e ≡ NoMemory };

    fn from(_: AllocFailed<T>) -> Self {
        MetaErr::NoMemory
    }
}
