// The bytes of verified pieces in a part of a payload.
ghost use Rattle.std.specs.Prelude.{◌≡◌, ◌+◌, ◌-◌, ◌<◌, ◌≤◌, ◌^◌};
ghost use Rattle.machine_core.specs.Asked.{known_by};
ghost use Rattle.run_report.specs.Files as spec;

use bit_rows::BitRow;
use machine_core::Lengths;

// The bytes that a piece has of the part from `first` to before `end`.
fn shared_bytes(lengths: Lengths, first: u64, end: u64, piece: u32) -> u64
    requires order { first ≤ end }
    ensures value { result ≡ spec.shared_bytes (known_by lengths) first (end - first) piece }
    ensures few { result ≤ lengths.piece_len }
{
    let len = lengths.piece_len as u128;
    let start = piece as u128 * len;
    let past = (start + len).min(lengths.total as u128);
    (end as u128)
        .min(past)
        .saturating_sub((first as u128).max(start)) as u64
}

/// The bytes of verified pieces in the part of a payload that begins at `first` and has `len` bytes. It looks at the pieces
/// of the part alone.
pub(crate) fn verified_bytes_in(verified: &BitRow, lengths: Lengths, first: u64, len: u64) -> u64
    requires some { 1 ≤ lengths.piece_len }
    requires fits { first + len < 2 ^ 64 }
    ensures { result ≡ spec.verified_bytes_in (known_by lengths) verified.now first len }
{
    let count = verified.len() as u64;
    let piece_len = lengths.piece_len as u64;
    let end = first + len;
    let low = (first / piece_len).min(count) as u32;
    let until = end.div_ceil(piece_len).min(count) as u32;
    let mut bytes = 0;
    for piece in low..until {
        if verified.get(piece) {
            bytes += shared_bytes(lengths, first, end, piece);
        }
    }
    bytes
}
