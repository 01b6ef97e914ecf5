// The lengths that pieces may have.
ghost use Rattle.std.specs.Prelude.{◌↔◌, IsTrue};
ghost use Rattle.merkle_trees.specs.Trees.{IsPieceLen};

use dl_kinds::{BLOCK_LEN, MAX_PIECE_LEN};

/// Whether a version 2 torrent may have pieces of this length: a power of two from 16,384 to 67,108,864.
pub fn is_piece_len(piece_len: u32) -> bool
    ensures { IsTrue result ↔ IsPieceLen piece_len }
{
    if piece_len < BLOCK_LEN || piece_len > MAX_PIECE_LEN {
        return false;
    }
    piece_len.next_power_of_two() == piece_len
}
