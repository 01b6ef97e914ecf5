// The bytes of a metainfo file, by all rules.
ghost use Rattle.std.specs.Prelude.{◌≡◌, ◌^◌, ◌<◌, length, IfOk};
ghost use Rattle.dl_kinds.specs.Answers.{Gives};
ghost use Rattle.span_map.specs.Layout.{total_of};
ghost use Rattle.metainfo.specs.Info.{info_of};
ghost use Rattle.metainfo.specs.Refusals.{refusal_of};
ghost use Rattle.metainfo.specs.Rules as specs;

use crate::files::layout_in;
use crate::rules::{
    check_count, digests_in, file_of, info_hash_of, info_in, name_in, piece_len_in, plan_of,
};
use crate::seeds::seeds_in;
use crate::{Meta, MetaErr};
use std::alloc::Global;

#[tactic(auto, unfolding(crate::specs::Rules::metainfo_of))]
pub(crate) fn meta_of(alloc: Global, bytes: &[u8]) -> Result<Meta, MetaErr>
    requires { length bytes.now < 2 ^ 32 }
    ensures exact { Gives info_of refusal_of result (specs.metainfo_of bytes.now) }
    ensures total { IfOk result (λ meta. total_of meta.layout ≡ meta.plan.total) }
    ensures digests { IfOk result (λ meta. length meta.digests ≡ meta.plan.pieces) }
{
    let file = file_of(bytes)?;
    let info = info_in(&file)?;
    let name = name_in(alloc, &info)?;
    let piece_len = piece_len_in(&info)?;
    let digests = digests_in(alloc, &info)?;
    let layout = layout_in(alloc, &name, &info)?;
    let plan = plan_of(layout.total(), piece_len)?;
    check_count(digests.len() as u32, plan.pieces)?;
    let seeds = seeds_in(alloc, &file)?;
    Ok(Meta {
        name,
        layout,
        plan,
        digests,
        info_hash: info_hash_of(bytes, &info),
        seeds,
    })
}
