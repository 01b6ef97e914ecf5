// What a control file lists, in bytes.
use control_file::{Control, InFlight};
use std::alloc::Global;

const BLOCK_BYTES: u64 = 16_384;

/// How many bytes a control file lists, and of how many. None where it can't be read. The last piece and the last blocks
/// count as whole ones.
pub(crate) fn listed_in(alloc: Global, bytes: &[u8]) -> Option<(u64, u64)> {
    let control = Control::read(alloc, bytes).ok()?;
    let verified = u64::from(control.pieces.count_ones()).saturating_mul(u64::from(
        control.piece_len,
    ));
    let listed = verified.saturating_add(in_flight(control.flight.items()));
    Some((listed.min(control.total), control.total))
}

fn in_flight(pieces: &[InFlight]) -> u64 {
    let mut bytes = 0u64;
    for piece in pieces {
        let blocks = u64::from(piece.blocks.count_ones());
        bytes = bytes.saturating_add(blocks * BLOCK_BYTES);
    }
    bytes
}
