// Why a download isn't opened.
ghost use Rattle.std.specs.Prelude.{◌≡◌};
ghost use Rattle.resume_core.specs.Causes.{IsUnopenedBy, IsUnopenedFor};
ghost use Rattle.resume_core.specs.Refusals.{IsUnreadable};
ghost use Rattle.resume_core.specs.declared.refusing.OpenErr.TheVariants.{NoMemory};

use crate::fault::StoreErr;
use control_file::ControlErr;
use dl_kinds::IoErr;
use std::alloc::{AllocError, AllocFailed};
use thiserror::Error;

/// Why a download isn't opened.
#[derive(Clone, Copy, Debug, PartialEq, Eq, Error)]
pub enum OpenErr {
    /// An unlisted payload stands without a control file. Its first file has this length.
    #[error("a file of {length} bytes is in the way")]
    Exists { length: u64 },
    #[error("the control file is of pieces of {have} bytes, not of {want}")]
    PieceLength { have: u32, want: u32 },
    #[error("the control file is of {have} bytes, not of {want}")]
    Length { have: u64, want: u64 },
    #[error("the control file is of another info hash")]
    InfoHash,
    /// The place of the first fault of the control file, and 0 where its version is unknown.
    #[error("the control file is wrong at byte {at}")]
    Unreadable { at: u64 },
    #[error("a fault of the disk")]
    Disk,
    #[error("out of memory")]
    NoMemory,
}

impl From<IoErr> for OpenErr {
    ghost from_gives = { IsUnopenedBy };

    fn from(err: IoErr) -> Self {
        match err {
            IoErr::Fault => OpenErr::Disk,
            IoErr::NoMemory => OpenErr::NoMemory,
        }
    }
}

impl From<StoreErr> for OpenErr {
    ghost from_gives = { IsUnopenedFor };

    fn from(err: StoreErr) -> Self {
        match err {
            StoreErr::Disk => OpenErr::Disk,
            StoreErr::NoMemory => OpenErr::NoMemory,
        }
    }
}

impl From<ControlErr> for OpenErr {
    ghost from_gives = { IsUnreadable };

    fn from(err: ControlErr) -> Self {
        match err {
            ControlErr::Wrong { at } => OpenErr::Unreadable { at },
            ControlErr::Version(_) => OpenErr::Unreadable { at: 0 },
            ControlErr::NoMemory => OpenErr::NoMemory,
        }
    }
}

impl From<AllocError> for OpenErr {
    ghost from_gives = { λ _ e. e ≡ NoMemory };

    fn from(_: AllocError) -> Self {
        OpenErr::NoMemory
    }
}

impl<T: Drop> From<AllocFailed<T>> for OpenErr {
    ghost from_gives = { λ _ e. e ≡ NoMemory };

    fn from(_: AllocFailed<T>) -> Self {
        OpenErr::NoMemory
    }
}
