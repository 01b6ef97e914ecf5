//! Worked cases of the crates below the run: bencoding, bodies and heads of replies, layouts, metainfo files and
//! numbers. The words name files of cases. Each line of them is printed, and behind it, after two spaces, what comes of
//! it. `data/README` tells how cases are written.
#![tactic(auto)]

mod bencoding;
mod bodies;
mod buckets;
mod heads;
mod jobs;
mod layouts;
mod metainfos;
mod numbers;
mod replies;
mod rows;
mod spelling;
mod trial;

use anyhow::Result;
use test_lines::try_files;
use trial::Cases;

fn main(rt: HostRuntime) -> Result<()> {
    try_files(&rt, Cases::new(rt.alloc()))
}
