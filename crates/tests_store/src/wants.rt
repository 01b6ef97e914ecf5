// What the words want.
ghost use Rattle.std.specs.Prelude.{◌≤◌, IfOk};
ghost use Rattle.span_map.specs.Jobs.{IsRun};

use anyhow::{Context, Result, ensure};
use control_file::Want;
use dl_kinds::{Plan, Run, Text};
use metainfo::Meta;
use std::fs;
use std::fs::{File, Files};

// The most bytes of a metainfo file.
const MOST: usize = 33_554_432;

/// What a metainfo file wants in a folder.
pub fn want_of<R: Files<File = File> + AllocGlobal>(
    rt: &R,
    torrent: &str,
    dir: &str,
) -> Result<Want> {
    let bytes = fs::read(rt, torrent).context("no metainfo file")?;
    ensure!(bytes.len() <= MOST, "the metainfo file is too large");
    let meta = Meta::read(rt.alloc(), &bytes)?;
    Ok(Want {
        base: meta.name,
        dir: Text::of(rt.alloc(), dir)?,
        layout: meta.layout,
        plan: meta.plan,
        digests: meta.digests,
        info_hash: Some(meta.info_hash),
    })
}

fn number_of(word: Option<&str>) -> Result<u32> {
    let word = word.context("a number is wanted")?;
    Ok(word.parse::<u32>()?)
}

/// A run of at most 64 blocks of the plan.
pub fn run_of(plan: &Plan, first: Option<&str>, count: Option<&str>) -> Result<Run>
    ensures run { IfOk result (IsRun plan.now) }
    ensures few { IfOk result (λ run. run.count ≤ 64) }
{
    let first = number_of(first)?;
    let count = number_of(count)?;
    let blocks = plan.blocks();
    ensure!(count >= 1 && count <= 64, "from 1 to 64 blocks are wanted");
    ensure!(
        first < blocks && count <= blocks - first,
        "the payload has {blocks} blocks"
    );
    Ok(Run { first, count })
}
