// Why bytes are no metainfo file of version 2.
ghost use Rattle.std.specs.Prelude.{◌≡◌};
ghost use Rattle.meta_v2.specs.declared.refusals.V2Err.TheVariants.{NoMemory};

use bencode_core::BenErr;
use std::alloc::{AllocError, AllocFailed};
use thiserror::Error;

/// The keys that are looked for.
#[derive(Clone, Copy, Debug, PartialEq, Eq)]
pub enum KeyV2 {
    /// `info`
    Info,
    /// `meta version`
    MetaVersion,
    /// `name`
    Name,
    /// `piece length`
    PieceLength,
    /// `file tree`
    FileTree,
    /// `length`
    Length,
    /// `pieces root`
    PiecesRoot,
    /// `piece layers`
    PieceLayers,
}

/// The first rule that the bytes break. A number is that of the file in the order of the tree, from 0.
#[derive(Clone, Copy, Debug, PartialEq, Eq, Error)]
pub enum V2Err {
    /// The bytes are no bencoded value. Want of memory never stands in it.
    #[error("no bencoded value: {0}")]
    Bencode(BenErr),
    #[error("there is no {0:?}")]
    Lacks(KeyV2),
    /// The value of the key isn't as it has to be.
    #[error("{0:?} is of the wrong kind")]
    BadKind(KeyV2),
    #[error("the path of file {0} is bad")]
    BadPath(u32),
    #[error("more than 1048576 pieces, or more than 4398046511104 bytes")]
    TooLarge,
    /// The piece layer of the file hasn't 32 bytes for each piece.
    #[error("the piece layer of file {0} is of the wrong length")]
    LayerLength(u32),
    /// The root over the piece layer of the file isn't the file's.
    #[error("the piece layer of file {0} is of another root")]
    LayerRoot(u32),
    #[error("out of memory")]
    NoMemory,
}

impl From<AllocError> for V2Err {
    ghost from_gives = { λ _ e. e ≡ NoMemory };

    fn from(_: AllocError) -> Self {
        V2Err::NoMemory
    }
}

impl<T: Drop> From<AllocFailed<T>> for V2Err {
    ghost from_gives = { λ _ e. e ≡ NoMemory };

    fn from(_: AllocFailed<T>) -> Self {
        V2Err::NoMemory
    }
}
