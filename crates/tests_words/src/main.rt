//! Worked cases of what stands on standard error. The words name files of cases. Each line of them is printed, and behind it the
//! lines that come of it. `data/README` tells how cases are written.
#![tactic(auto)]

mod endings;
mod rig;
mod steps;

use anyhow::Result;
use rig::Rig;
use test_lines::try_files;

fn main(rt: HostRuntime) -> Result<()> {
    try_files(&rt, Rig::new(rt.alloc()))
}
