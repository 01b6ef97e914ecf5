// The disk of a load.
ghost use Rattle.std.specs.Prelude.{◌≡◌, IfOk, unwrap_or};
ghost use Rattle.load_setup.specs.Disk.{IsLoadDisk, payload_read};
ghost use Rattle.load_setup.specs.Sound.{sound_reading};

use crate::sound_disk::SoundDisk;
use crate::torrent::{TORRENT, load_metainfo};
use dl_kinds::{Blob, Digests, Text};
use std::alloc::{AllocError, Global};

/// The name of the payload.
pub const PAYLOAD: &str = "load.bin";

/// A disk in memory that holds the metainfo file alone.
pub fn load_disk(alloc: Global, digests: &Digests) -> Result<SoundDisk, AllocError>
    ensures { IfOk result (IsLoadDisk digests.now) }
{
    let mut files = Vec::with_capacity(alloc, 1)?;
    let metainfo = Blob::wrap(load_metainfo(alloc, digests)?);
    files.push((Text::of(alloc, TORRENT)?, metainfo))?;
    SoundDisk::new(alloc, files)
}

/// The payload as the disk reads it, and nothing where it has none.
pub fn payload_on(disk: &SoundDisk) -> &[u8]
    ensures { result.now ≡ payload_read (sound_reading disk.now) }
{
    disk.file(PAYLOAD).unwrap_or(&[])
}
