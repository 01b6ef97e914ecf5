//! Worked cases of a dialogue with an FTP server: where URLs lead, what replies are, and what each step says and leads to. The words
//! name files of cases. Each line of them is printed, and behind it, after two spaces, what comes of it. `data/README` tells how
//! cases are written.
#![tactic(auto)]

mod places;
mod replies;
mod spelling;
mod steps;
mod trial;

use anyhow::Result;
use test_lines::try_files;
use trial::Cases;

fn main(rt: HostRuntime) -> Result<()> {
    try_files(&rt, Cases::new(rt.alloc()))
}
