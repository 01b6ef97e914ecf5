// The bytes of a metainfo file, by all rules.
ghost use Rattle.std.specs.Prelude.{◌≡◌, ◌^◌, ◌<◌, length};
ghost use Rattle.dl_kinds.specs.Answers.{Gives};
ghost use Rattle.meta_v2.specs.Refusals.{refusal_of};
ghost use Rattle.meta_v2.specs.Rules as specs;

use crate::entries::entries_of;
use crate::layers::{files_of, layers_in};
use crate::limits::check_limits;
use crate::rules::{file_of, info_hash_of, info_in, name_in, piece_len_in, version_in};
use crate::tree::tree_in;
use crate::{MetaV2, V2Err};
use std::alloc::Global;

#[tactic(auto, unfolding(crate::specs::Rules::meta_v2_of))]
pub(crate) fn meta_of(alloc: Global, bytes: &[u8]) -> Result<MetaV2, V2Err>
    requires { length bytes.now < 2 ^ 32 }
    ensures { Gives (λ meta. meta) refusal_of result (specs.meta_v2_of bytes.now) }
{
    let file = file_of(bytes)?;
    let info = info_in(&file)?;
    version_in(&info)?;
    let name = name_in(alloc, &info)?;
    let piece_len = piece_len_in(&info)?;
    let tree = tree_in(alloc, &info)?;
    let listed = entries_of(alloc, &name, &tree)?;
    let entries = listed.as_slice();
    check_limits(piece_len, entries)?;
    let layers = layers_in(alloc, piece_len, entries, &file)?;
    let files = files_of(alloc, piece_len, &layers, entries)?;
    Ok(MetaV2 {
        name,
        piece_len,
        files,
        info_hash: info_hash_of(bytes, &info),
    })
}
