// Resources of mirrors in memory.
ghost use Rattle.std.specs.Prelude.{◌≡◌, ◌+◌, ◌≤◌, ◌<◌, ◌^◌, length, IfOk};
ghost use Rattle.dl_kinds.specs.Lists.{part_at};
ghost use Rattle.link_source.specs.Resources.{bytes_of};

use crate::load::load_part;
use std::alloc::{AllocError, Global};

/// A resource, whose bytes are stored, or made as they are asked for.
#[derive(Drop)]
pub enum Resource<'a> {
    Stored(&'a [u8]),
    /// The first bytes of the load of this number.
    Load { n: u64, len: u64 },
}

impl Resource<'_> {
    /// How many bytes it has.
    pub fn len(&self) -> u64
        ensures { result ≡ length (bytes_of self.now) }
    {
        match self {
            Resource::Stored(bytes) => bytes.len() as u64,
            Resource::Load { len, .. } => *len,
        }
    }

    /// So many of its bytes, from a place on.
    pub fn part(&self, alloc: Global, first: u64, count: u64) -> Result<Vec<u8>, AllocError>
        requires within { first + count ≤ length (bytes_of self.now) }
        requires fits { first + count < 2 ^ 64 }
        ensures { IfOk result (λ part. part.items ≡ part_at (bytes_of self.now) first count) }
    {
        match self {
            Resource::Stored(bytes) => {
                bytes[first as usize..(first + count) as usize].to_vec(alloc)
            }
            Resource::Load { n, .. } => load_part(alloc, *n, first, count),
        }
    }
}
