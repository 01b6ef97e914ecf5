// The operations of workers, and what they are answered.
ghost use Rattle.engine_turns.specs.RunTurns.{IsLawfulOperation};
ghost use Rattle.std.specs.Prelude.{IfOk};

use crate::spelling::repeated;
use anyhow::{Context, Result, bail};
use dl_kinds::{Blob, Gid, Moment, Run};
use engine_turns::{Grant, Operation, Said};
use std::alloc::Global;
use verify_piece::Sealed;

/// The operation that a line tells of.
pub fn operation_of(alloc: Global, line: &str, now: Moment) -> Result<Operation>
    ensures { IfOk result IsLawfulOperation }
{
    let words: Vec<&str> = line.split(' ').collect(alloc)?;
    Ok(match words.as_slice() {
        ["next", worker] => {
            let worker = worker.parse::<u32>()?;
            Operation::Next { worker, now }
        }
        ["size", claim, total] => {
            let total = total.parse::<u64>()?;
            Operation::Sized {
                claim: claim.parse::<u64>()?,
                total,
                now,
            }
        }
        ["deliver", claim, first, count, bytes] => {
            let run = Run {
                first: first.parse::<u32>()?,
                count: count.parse::<u32>()?,
            };
            Operation::Deliver {
                claim: claim.parse::<u64>()?,
                run,
                bytes: Blob::wrap(repeated(alloc, bytes)?),
                now,
            }
        }
        ["seal", gid, piece, bytes] => {
            let bytes = Blob::wrap(repeated(alloc, bytes)?);
            let gid = Gid::read(gid).context("a gid is wanted")?;
            Operation::Seal {
                gid,
                sealed: Sealed::of(piece.parse::<u32>()?, bytes),
                now,
            }
        }
        _ => bail!("no operation: {line}"),
    })
}

fn shown_grant(alloc: Global, grant: &Grant) -> Result<String> {
    Ok(match grant {
        Grant::Fetch(fetch) => {
            let run = fetch.job.run;
            format!(in alloc;
                "claim {}: fetch blocks {}+{}",
                fetch.claim, run.first, run.count
            )?
        }
        Grant::Probe { claim, .. } => format!(in alloc; "claim {claim}: probe")?,
        Grant::Hash { piece, .. } => format!(in alloc; "hash piece {piece}")?,
    })
}

/// What an operation is answered.
pub fn shown_answer(alloc: Global, said: &Said) -> Result<String> {
    Ok(match said {
        Said::Grant(grant) => shown_grant(alloc, grant)?,
        Said::Kept { counted, repeated } => {
            format!(in alloc; "{counted} kept, {repeated} again")?
        }
        Said::Void => String::from_str(alloc, "void")?,
        Said::Idle => String::from_str(alloc, "idle")?,
        Said::Done => String::from_str(alloc, "done")?,
        Said::Finished => String::from_str(alloc, "finished")?,
        _ => bail!("another answer"),
    })
}
