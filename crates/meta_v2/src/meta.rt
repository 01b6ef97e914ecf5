// What a metainfo file says as version 2.
ghost use Rattle.std.specs.Prelude.{◌≡◌, ◌^◌, ◌<◌, ◌⊎◌, length, Ok, Err, IfOk, IsOkUnless};
ghost use Rattle.dl_kinds.specs.Answers.{Gives};

use crate::reading::meta_of;
use crate::{FilesV2, V2Err};
use dl_kinds::Text;
use merkle_trees::SHA256_LEN;
use std::alloc::Global;

/// What a metainfo file says as version 2.
#[derive(Debug, Drop)]
pub struct MetaV2 {
    /// The name of the payload's file, or of its folder.
    pub name: Text,
    /// The bytes of a piece, but for the last one of a file.
    pub piece_len: u32,
    /// The files in the order of the tree.
    pub files: FilesV2,
    /// SHA-256 of the bytes that spell the value of `info`.
    pub info_hash: [u8; SHA256_LEN],
}

impl MetaV2 {
    ghost use Rattle.meta_v2.specs.Refusals.{refusal_of};
    ghost use Rattle.meta_v2.specs.Rules.{meta_v2_of};
    ghost use Rattle.meta_v2.specs.Sound.{IsSoundV2};
    ghost use Rattle.meta_v2.specs.declared.meta.MetaV2.{MetaV2};
    ghost use Rattle.meta_v2.specs.declared.refusals.V2Err.{V2Err};

    /// What a metainfo file says as version 2. An error but want of memory is the first rule that the bytes break; the
    /// rules are tested in this order:
    ///
    /// 1. The bytes are one bencoded value: `Bencode`.
    /// 2. It has `info`, a dictionary, and this has `meta version`, the integer 2, `name`, a valid part of a path,
    ///    `piece length`, a power of two from 16,384 to 67,108,864, and `file tree`, dictionaries by the parts of paths,
    ///    where a file is a dictionary whose key of length 0 holds a dictionary: for each of these `Lacks`, then `BadKind`.
    /// 3. For each file in the order of the tree: it has 1 to 63 parts behind the name, all valid, `BadPath`; `length`, an
    ///    integer of at least 0, `Lacks`, `BadKind`; and `pieces root`, a string of 32 bytes, unless it is empty, `Lacks`,
    ///    `BadKind`.
    /// 4. There are at most 1,048,576 pieces, and the lengths sum to at most 4,398,046,511,104: `TooLarge`.
    /// 5. `piece layers`, beside `info`, is a dictionary that has a string for the root of each file that is longer than a
    ///    piece: `Lacks`, `BadKind`. It may be missing where there is no such file.
    /// 6. For each such file in the order of the tree: this string has 32 bytes for each piece, `LayerLength`, and the root
    ///    over these hashes is that of the file, `LayerRoot`.
    ///
    /// Other keys are passed over, and so are those of version 1. A value without keys lacks them. The path of a file is
    /// the name and its parts in the tree; that of the one file of a tree that has the name there is the name alone. The
    /// layer of a file that is no longer than a piece is its root alone, and that of an empty file is empty.
    /// Time is in proportion to the bytes, and to how deep the tree is. Each file holds its whole path in memory.
    pub fn read(alloc: Global, bytes: &[u8]) -> Result<MetaV2, V2Err>
        requires { length bytes.now < 2 ^ 32 }
        // What the bytes say, or the first rule that they break, unless memory runs out.
        ensures exact { Gives (λ meta. meta) refusal_of result (meta_v2_of bytes.now) }
        // Bytes that say something are refused only for want of memory.
        ensures said { (meta : MetaV2) → meta_v2_of bytes.now ≡ Ok meta
            → IsOkUnless result V2Err.NoMemory }
        // The first rule that they break is answered, unless memory runs out.
        ensures refused { (e : V2Err) → meta_v2_of bytes.now ≡ Err e
            → (result ≡ Err e) ⊎ (result ≡ Err V2Err.NoMemory) }
        ensures sound { IfOk result IsSoundV2 }
    {
        meta_of(alloc, bytes)
    }
}
