// The payload of a load: its pieces and their digests.
ghost use Rattle.std.specs.Prelude.{◌≡◌, ◌+◌, ◌*◌, ◌≤◌, ◌<◌, ◌^◌, IfOk};
ghost use Rattle.sha1.specs.Sha1.{sha1};
ghost use Rattle.load_setup.specs.Payload.{digests_of, load_piece};

use dl_kinds::Digests;
use link_source::load_part;
use sha1::Sha1;
use std::alloc::{AllocError, Global};

/// The bytes of a piece.
pub const PIECE: u64 = 1_048_576;

/// How many pieces there are.
pub const PIECES: u64 = 64;

/// The bytes of the payload.
pub const TOTAL: u64 = 67_108_864;

// The digest of a piece.
fn digest_of(alloc: Global, n: u64, piece: u64) -> Result<[u8; 20], AllocError>
    requires { piece < PIECES }
    ensures { IfOk result (λ digest. digest ≡ sha1 (load_piece n piece)) }
{
    Ok(Sha1::digest(&load_part(alloc, n, piece * PIECE, PIECE)?))
}

/// The digests of the load's pieces.
pub fn load_digests(alloc: Global, n: u64) -> Result<Digests, AllocError>
    ensures { IfOk result (λ digests. digests ≡ digests_of n) }
{
    let mut digests = Digests::new(alloc);
    for piece in 0..PIECES {
        digests.push(digest_of(alloc, n, piece)?)?;
    }
    Ok(digests)
}
