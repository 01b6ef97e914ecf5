// The limits as numbers.
ghost use Rattle.std.specs.Prelude.{◌≡◌};
ghost use Rattle.dl_kinds.specs.declared.claims.TheConstants.{MAX_MIRRORS};
ghost use Rattle.dl_kinds.specs.declared.plan.TheConstants.{BLOCK_LEN, MAX_BLOCKS, MAX_PAYLOAD_LEN, MAX_PIECES, MAX_PIECE_BLOCKS, MAX_PIECE_LEN};

/// The sizes of blocks, pieces and payloads, and the most mirrors of a download. It does nothing when it runs.
pub fn limits_are_told()
    ensures block { BLOCK_LEN ≡ 16384 }
    ensures piece { MAX_PIECE_LEN ≡ 67108864 }
    ensures pieces { MAX_PIECES ≡ 1048576 }
    ensures blocks { MAX_BLOCKS ≡ 268435456 }
    ensures piece_blocks { MAX_PIECE_BLOCKS ≡ 4096 }
    ensures payload { MAX_PAYLOAD_LEN ≡ 4398046511104 }
    ensures mirrors { MAX_MIRRORS ≡ 256 }
{}
