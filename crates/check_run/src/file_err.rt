// Why a metainfo file gives no payload.
ghost use Rattle.std.specs.Prelude.{◌≡◌};
ghost use Rattle.check_run.specs.declared.file_err.FileErr.TheVariants.{NoMemory};
ghost use Rattle.check_run.specs.Files.{fault_by_rule, refusal_by};

use dl_kinds::IoErr;
use meta_v2::V2Err;
use run_report::{MetainfoFault, RunEnding};
use std::alloc::{AllocError, AllocFailed};

// Why a metainfo file gives no payload of version 2.
#[derive(Clone, Copy, Debug)]
pub(crate) enum FileErr {
    Missing,
    Fault,
    TooLong,
    Broken(V2Err),
    NoMemory,
}

impl From<IoErr> for FileErr {
    ghost use Rattle.check_run.specs.Files.{error_of_disk};

    ghost from_gives = { λ x e. e ≡ error_of_disk x };

    fn from(error: IoErr) -> Self {
        match error {
            IoErr::Fault => FileErr::Fault,
            IoErr::NoMemory => FileErr::NoMemory,
        }
    }
}

impl From<AllocError> for FileErr {
    ghost from_gives = { λ _ e. e ≡ NoMemory };

    fn from(_: AllocError) -> Self {
        FileErr::NoMemory
    }
}

impl<T: Drop> From<AllocFailed<T>> for FileErr {
    ghost from_gives = { λ _ e. e ≡ NoMemory };

    fn from(_: AllocFailed<T>) -> Self {
        FileErr::NoMemory
    }
}

fn fault_by_rule(error: V2Err) -> MetainfoFault
    ensures { result ≡ fault_by_rule error }
{
    match error {
        V2Err::Bencode(_) => MetainfoFault::NotBencode,
        _ => MetainfoFault::Unusable,
    }
}

// How the run ends that is refused so.
pub(crate) fn refusal_by(error: FileErr) -> RunEnding
    ensures { result ≡ refusal_by error }
{
    match error {
        FileErr::Missing => RunEnding::NoMetainfo(MetainfoFault::Missing),
        FileErr::Fault => RunEnding::NoMetainfo(MetainfoFault::Unread),
        FileErr::TooLong => RunEnding::NoMetainfo(MetainfoFault::TooLong),
        FileErr::Broken(error) => RunEnding::NoMetainfo(fault_by_rule(error)),
        FileErr::NoMemory => RunEnding::NoMemory,
    }
}
