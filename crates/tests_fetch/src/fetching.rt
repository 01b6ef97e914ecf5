// Fetches of runs of a payload that is one resource.
ghost use Rattle.std.specs.Prelude.{◌≡◌, ◌≤◌, IfOk, IsTrue, OnOk};
ghost use Rattle.fetch_session.specs.Fetches.{ready_of, MayBegin, MayStep};
ghost use Rattle.span_map.specs.Jobs.{IsJob};

use dl_kinds::{Blob, Plan, Run, Text};
use fetch_session::{Fetch, FetchRoom, Loss};
use link_source::{Links, Manner, MemFile, MemMirror};
use span_map::{Job, JobPart, JobParts};
use std::alloc::Global;
use std::test::Fail;

/// Where the resource is.
pub const URL: &str = "http://m.test/a.bin";

/// A mirror with the resource.
pub fn mirror(alloc: Global, manner: Manner, bytes: &[u8]) -> Result<MemMirror, Fail> {
    let mut files = Vec::new(alloc);
    let file = MemFile::Bytes(Blob::wrap(bytes.to_vec(alloc)?));
    files.push((Text::of(alloc, "/a.bin")?, file))?;
    Ok(MemMirror {
        host: Text::of(alloc, "m.test")?,
        port: 80,
        files,
        manner,
    })
}

/// The fetch of some blocks, by one part of the resource.
pub fn job(alloc: Global, plan: Plan, first: u32, count: u32) -> Result<Job, Fail>
    ensures { IfOk result IsJob }
{
    let blocks = plan.blocks();
    if count == 0 || first >= blocks || count > blocks - first {
        return Err("no run")?;
    }
    let (start, _) = plan.block_span(first);
    let (last, len) = plan.block_span(first + count - 1);
    let end = last + len as u64;
    if end <= start {
        return Err("no bytes")?;
    }
    let mut parts = JobParts::new(alloc);
    parts.push(JobPart {
        url: Text::of(alloc, URL)?,
        at: start,
        len: end - start,
        total: plan.total,
    })?;
    Ok(Job {
        plan,
        run: Run { first, count },
        parts,
    })
}

/// Where blocks go.
pub trait Takes {
    /// Takes the next blocks, and answers whether it did.
    fn take(&mut self, bytes: &[u8]) -> bool;
}

impl Takes for Vec<u8> {
    fn take(&mut self, bytes: &[u8]) -> bool {
        self.extend_from_slice(bytes).is_ok()
    }
}

// More than 64 blocks with their heads, so that no step ends for it.
const ALLOWED: u32 = 4_194_304;

// One step, and what it made ready. The answer is whether that was all.
fn step<L: Links, T: Takes>(
    alloc: Global,
    link: &mut L,
    fetch: &mut Fetch,
    into: &mut T,
) -> Result<bool, Loss>
    requires none_ready { (ready_of fetch.old).count ≡ 0 }
    requires may { IsTrue L.tells → MayStep fetch.old (L.state link.old) }
    ensures none_ready { OnOk result ((ready_of fetch.new).count ≡ 0) }
    ensures may { OnOk result (IsTrue L.tells → MayStep fetch.new (L.state link.new)) }
{
    let got = fetch.step(alloc, link, ALLOWED)?;
    if got.ready.count == 0 {
        return Ok(got.done);
    }
    let blocks = fetch.take_blocks();
    let taken = into.take(blocks.bytes());
    fetch.give_back(blocks);
    if taken {
        Ok(got.done)
    } else {
        Err(Loss::NoMemory)
    }
}

// The steps up to the last one.
fn read_all<L: Links, T: Takes>(
    alloc: Global,
    link: &mut L,
    fetch: &mut Fetch,
    into: &mut T,
) -> Result<(), Loss>
    requires none_ready { (ready_of fetch.old).count ≡ 0 }
    requires may { IsTrue L.tells → MayStep fetch.old (L.state link.old) }
    ensures may { OnOk result (IsTrue L.tells → MayStep fetch.new (L.state link.new)) }
{
    'steps: for _ in 0..1_000_000u32 {
        if step(alloc, link, fetch, into)? {
            return Ok(());
        }
    }
    Err(Loss::NoMemory)
}

/// Fetches a run to its end, hands its blocks on, and gives the room back.
pub fn bring<L: Links, T: Takes>(
    alloc: Global,
    link: &mut L,
    room: FetchRoom,
    job: Job,
    into: &mut T,
) -> Result<FetchRoom, Loss>
    requires job { IsJob job }
    requires may { IsTrue L.tells → MayBegin room (L.state link.old) }
    ensures may { IfOk result (λ room. IsTrue L.tells → MayBegin room (L.state link.new)) }
{
    let mut fetch = Fetch::begin(job, room);
    match read_all(alloc, link, &mut fetch, into) {
        Ok(()) => Ok(fetch.into_room()),
        Err(loss) => Err(loss),
    }
}
