// Files, parts of files, and why files are no layout.
ghost use Rattle.std.specs.Prelude.{◌≡◌};
ghost use Rattle.span_map.specs.declared.files.LayoutErr.TheVariants.{NoMemory};

use dl_kinds::Texts;
use std::alloc::{AllocError, AllocFailed};
use thiserror::Error;

/// A file of a payload: its path, from the folder of the payload on, and its length in bytes.
#[derive(Debug, Drop)]
pub struct FileLen {
    pub path: Texts,
    pub len: u64,
}

/// Bytes of a file: its number in the layout, from 0, the place in the file and how many bytes.
#[derive(Clone, Copy, Debug, PartialEq, Eq)]
pub struct Part {
    pub file: u32,
    pub at: u64,
    pub len: u64,
}

/// Why files are no layout. A number is that of the file, from 0.
#[derive(Clone, Copy, Debug, PartialEq, Eq, Error)]
pub enum LayoutErr {
    #[error("no file")]
    Empty,
    #[error("the files are longer than 4398046511104 bytes")]
    TooLong,
    #[error("the path of file {0} is bad")]
    BadPath(u32),
    #[error("the path of file {0} is that of an earlier file, or one is a folder of the other")]
    Repeated(u32),
    #[error("out of memory")]
    NoMemory,
}

impl From<AllocError> for LayoutErr {
    ghost from_gives = { λ _ e. e ≡ NoMemory };

    fn from(_: AllocError) -> Self {
        LayoutErr::NoMemory
    }
}

impl<T: Drop> From<AllocFailed<T>> for LayoutErr {
    ghost from_gives = { λ _ e. e ≡ NoMemory };

    fn from(_: AllocFailed<T>) -> Self {
        LayoutErr::NoMemory
    }
}
