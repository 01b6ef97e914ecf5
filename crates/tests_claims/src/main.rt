//! Claims of blocks beside a table of what has landed and the marks of mirrors, step by step. The words name files of cases.
//! Each line of them is printed, and behind it, after two spaces, what comes of it. `data/README` tells how cases are written.
#![tactic(auto)]

mod rig;
mod steps;
mod telling;

use anyhow::{Context, Result};
use steps::begun;
use test_lines::try_files;

fn main(rt: HostRuntime) -> Result<()> {
    let rig = begun(rt.alloc(), "payload 1 1 0 1 1 1 1").context("no download")?;
    try_files(&rt, rig)
}
