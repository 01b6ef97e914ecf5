// By what a part is asked for.
ghost use Rattle.std.specs.Prelude.{◌≡◌, ◌∷◌, [], IfOk};
ghost use Rattle.part_readers.specs.Asks.{IsAskFor};

use dl_kinds::NoMemory;
use ftp_places::{FtpErr, FtpPlace};
use span_map::{JobPart, JobParts};
use std::alloc::Global;

/// By what a part is asked for.
#[derive(Debug, Drop)]
pub enum PartAsk {
    /// Requests for ranges of what stands at its URL: a list of this part alone.
    Requests(JobParts),
    /// A dialogue about the file on an FTP server to which its URL leads.
    Dialogue(JobPart, FtpPlace),
}

fn copy(alloc: Global, part: &JobPart) -> Result<JobPart, NoMemory>
    ensures { IfOk result (λ copy. copy ≡ part.now) }
{
    Ok(JobPart {
        url: part.url.copy(alloc)?,
        at: part.at,
        len: part.len,
        total: part.total,
    })
}

fn alone(part: JobPart, alloc: Global) -> Result<JobParts, NoMemory>
    ensures { IfOk result (λ parts. parts ≡ part ∷ []) }
{
    let mut parts = JobParts::new(alloc);
    parts.push(part)?;
    Ok(parts)
}

/// By what this part is asked for, which its URL says.
pub fn ask_for(alloc: Global, part: &JobPart) -> Result<PartAsk, NoMemory>
    ensures { IfOk result (IsAskFor part.now) }
{
    let copy = copy(alloc, part)?;
    match FtpPlace::of(alloc, part.url.as_str()) {
        Ok(place) => Ok(PartAsk::Dialogue(copy, place)),
        Err(FtpErr::NotUrl | FtpErr::Scheme | FtpErr::BadPath) => {
            Ok(PartAsk::Requests(alone(copy, alloc)?))
        }
        Err(FtpErr::NoMemory) => Err(NoMemory),
    }
}
