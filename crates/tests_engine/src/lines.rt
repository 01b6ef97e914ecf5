// Operations of an engine, one a line, and what each is answered.
ghost use Rattle.std.specs.Prelude.{IfOk, IfSome};
ghost use Rattle.engine_turns.specs.RunTurns.{IsLawfulOperation};
ghost use Rattle.machine_core.specs.LawfulCalls.{AreOfDownloads, IsLawful};

use crate::calls::{no_options, one_option, torrent_call, uri_call};
use crate::letters;
use crate::payloads::{MOST, Payloads};
use crate::shown::shown_said;
use anyhow::{Context, Result, bail, ensure};
use dl_disk::MemDisk;
use dl_kinds::{Blob, Code, GID_DIGITS, Gid, GidKey, Mark, Moment, Run};
use engine_core::Engine;
use engine_turns::{FetchGrant, Grant, Operation, Said};
use machine_core::{Call, Cursor, Journal};
use option_set::{Options, Settings, read};
use run_report::Reply;
use std::alloc::Global;
use turn_desk::Served;
use verify_piece::Sealed;

/// The bytes of a whole block.
const BLOCK_LEN: u32 = 16_384;

/// A run that is over: what it left, what happened, and its downloads in the order in which they were added.
#[derive(Drop)]
pub struct Past {
    pub disk: MemDisk,
    pub journal: Journal,
    pub gids: Vec<Gid>,
}

/// An engine over a disk in memory, its downloads, and the moment.
#[derive(Drop)]
pub struct Course {
    alloc: Global,
    engine: Engine<MemDisk>,
    gids: Vec<Gid>,
    now: Moment,
}

// The options of a run, by words as `split=3`.
fn options_of(alloc: Global, words: &str) -> Result<Options> {
    let mut options = Options::new(alloc)?;
    for word in words.split(' ') {
        if let Some((name, value)) = word.split_once('=') {
            options.apply(read(alloc, name, value)?);
        }
    }
    Ok(options)
}

// Blocks that came, by their words.
fn delivery_of(alloc: Global, words: [&str; 4], now: Moment) -> Result<Operation>
    ensures { IfOk result IsLawfulOperation }
{
    let [claim, first, count, text] = words;
    let run = Run {
        first: first.parse::<u32>()?,
        count: count.parse::<u32>()?,
    };
    Ok(Operation::Deliver {
        claim: claim.parse::<u64>()?,
        run,
        bytes: Blob::wrap(letters::read(alloc, text)?),
        now,
    })
}

// The operation of a claim, by its words. One that fails gets a mark of a reply that has another length than the
// payload.
fn operation_of_claim(word: &str, claim: u64, number: &str, now: Moment) -> Result<Operation>
    ensures { IfOk result IsLawfulOperation }
{
    Ok(match word {
        "more" => {
            let want = number.parse::<u32>()?;
            Operation::More { claim, want, now }
        }
        "size" => {
            let total = number.parse::<u64>()?;
            Operation::Sized { claim, total, now }
        }
        "lose" => {
            let mark = Mark {
                code: Code(number.parse::<u8>()?),
                count: 0,
            };
            Operation::Lose { claim, mark, now }
        }
        _ => bail!("no operation: {word}"),
    })
}

// The operation of a worker or of the run, by its words.
fn operation_of(alloc: Global, words: &[&str], gid: Gid, now: Moment) -> Result<Operation>
    ensures { IfOk result IsLawfulOperation }
{
    Ok(match words {
        ["next", worker] => {
            let worker = worker.parse::<u32>()?;
            Operation::Next { worker, now }
        }
        ["deliver", claim, first, count, text] => {
            delivery_of(alloc, [claim, first, count, text], now)?
        }
        ["seal", piece, text] => {
            let bytes = Blob::wrap(letters::read(alloc, text)?);
            let sealed = Sealed::of(piece.parse::<u32>()?, bytes);
            Operation::Seal { gid, sealed, now }
        }
        ["stop"] => Operation::Stop { now },
        ["pulse"] => Operation::Pulse,
        ["notices"] => Operation::Notices { from: None },
        ["notices", event, nth] => Operation::Notices {
            from: Some(Cursor {
                event: event.parse::<u32>()?,
                nth: nth.parse::<u32>()?,
            }),
        },
        [word, claim, number] => operation_of_claim(word, claim.parse::<u64>()?, number, now)?,
        _ => bail!("no operation"),
    })
}

// The call for a download that a word asks for.
fn call_of(word: &str, key: GidKey) -> Result<Call>
    ensures { IfOk result IsLawful }
{
    Ok(match word {
        "pause" => Call::Pause { key },
        "unpause" => Call::Unpause { key },
        "remove" => Call::Remove { key },
        _ => bail!("no call: {word}"),
    })
}

// One option of a download, or none.
fn settings_of(alloc: Global, words: &[&str]) -> Result<Settings>
    ensures { IfOk result AreOfDownloads }
{
    match words {
        [] => Ok(no_options(alloc)),
        [name, value] => {
            let Some(options) = one_option(alloc, read(alloc, name, value)?)? else {
                bail!("no option of a download: {name}");
            };
            Ok(options)
        }
        _ => bail!("one option is wanted"),
    }
}

impl Course {
    /// A run with these options, as `split=3`, in which nothing happened, on this disk.
    pub fn new(alloc: Global, words: &str, disk: MemDisk) -> Result<Course> {
        let options = options_of(alloc, words)?;
        let engine = Engine::new(alloc, disk, 1, options, 0)
            .ok()
            .context("no engine")?;
        Ok(Course {
            alloc,
            engine,
            gids: Vec::new(alloc),
            now: Moment(0),
        })
    }

    /// Ends the run.
    pub fn into_past(self) -> Past {
        let Course { engine, gids, .. } = self;
        let (disk, journal) = engine.into_parts();
        Past {
            disk,
            journal,
            gids,
        }
    }

    // The latest download.
    fn gid(&self) -> Gid {
        match self.gids.last() {
            Some(gid) => *gid,
            None => Gid(0),
        }
    }

    fn serve(&mut self, op: Operation) -> Said
        requires { IsLawfulOperation op }
    {
        self.engine.serve(op).said
    }

    fn call(&mut self, call: Call) -> Said
        requires { IsLawful call }
    {
        self.serve(Operation::Call {
            session: 0,
            call,
            now: self.now,
        })
    }

    fn add(&mut self, call: Option<Call>) -> Result<Said>
        requires { IfSome call IsLawful }
    {
        let Some(call) = call else {
            bail!("nothing that can be added");
        };
        let said = self.call(call);
        if let Said::Replied {
            reply: Reply::Gid(gid),
            ..
        } = said
        {
            self.gids.push(gid)?;
        }
        Ok(said)
    }

    // The download of a metainfo file is added.
    fn add_torrent(&mut self, bytes: &[u8], options: &[&str]) -> Result<Said> {
        ensure!(bytes.len() <= MOST, "a large file");
        let options = settings_of(self.alloc, options)?;
        let call = torrent_call(self.alloc, bytes, options)?;
        self.add(call)
    }

    // What the words of a line ask for.
    fn perform(&mut self, payloads: &Payloads, words: &[&str]) -> Result<Said> {
        match words {
            ["torrent", name, options @ ..] => self.add_torrent(payloads.metainfo(name)?, options),
            ["uri", url, options @ ..] => {
                let options = settings_of(self.alloc, options)?;
                let call = uri_call(self.alloc, url, options)?;
                self.add(call)
            }
            ["work"] => self.work(payloads),
            [word @ ("pause" | "unpause" | "remove")] => {
                let key = GidKey {
                    digits: GID_DIGITS,
                    value: self.gid().0,
                };
                Ok(self.call(call_of(word, key)?))
            }
            _ => {
                let op = operation_of(self.alloc, words, self.gid(), self.now)?;
                Ok(self.serve(op))
            }
        }
    }

    // A worker brings one block.
    fn bring_block(&mut self, claim: u64, first: u32, bytes: &[u8]) -> Result<()> {
        self.now = Moment(self.now.0.saturating_add(1000));
        self.serve(Operation::Deliver {
            claim,
            run: Run { first, count: 1 },
            bytes: Blob::of(self.alloc, bytes)?,
            now: self.now,
        });
        Ok(())
    }

    // A worker brings the blocks of a grant one by one, a second each.
    fn bring(&mut self, payloads: &Payloads, fetch: &FetchGrant) -> Result<()> {
        let bytes = fetched(self.alloc, payloads, fetch)?;
        let mut rest = bytes.as_slice();
        let len = fetch.job.plan.piece_len.min(BLOCK_LEN) as usize;
        for place in 0..fetch.job.run.count {
            let (block, behind) = rest.split_at(len.min(rest.len()));
            rest = behind;
            self.bring_block(
                fetch.claim,
                fetch.job.run.first.saturating_add(place),
                block,
            )?;
        }
        Ok(())
    }

    // A worker does what it was given.
    fn take(&mut self, payloads: &Payloads, grant: Grant) -> Result<()> {
        match grant {
            Grant::Fetch(fetch) => self.bring(payloads, &fetch)?,
            Grant::Hash { gid, piece, bytes } => {
                let sealed = Sealed::of(piece, bytes);
                let now = self.now;
                self.serve(Operation::Seal { gid, sealed, now });
            }
            Grant::Probe { claim, url, .. } => {
                let total = payloads.mirrored(url.as_str())?.len() as u64;
                let now = self.now;
                self.serve(Operation::Sized { claim, total, now });
            }
        }
        Ok(())
    }

    // A worker's turns until nothing is left to do.
    fn work(&mut self, payloads: &Payloads) -> Result<Said> {
        for _ in 0..1000 {
            let said = self.serve(Operation::Next {
                worker: 0,
                now: self.now,
            });
            match said {
                Said::Grant(grant) => self.take(payloads, grant)?,
                Said::Finished => return Ok(Said::Finished),
                _other => {}
            }
        }
        bail!("no end")
    }

    /// What the operation of a line is answered.
    pub fn told(&mut self, payloads: &Payloads, line: &str) -> Result<String> {
        let words: Vec<&str> = line.split(' ').collect(self.alloc)?;
        if let ["at", ms] = words.as_slice() {
            self.now = Moment(ms.parse::<u64>()?);
            return Ok(String::from_str(self.alloc, "later")?);
        }
        let said = self.perform(payloads, &words)?;
        shown_said(self.alloc, &said)
    }
}

// The bytes of a grant, as its mirrors have them.
fn fetched(alloc: Global, payloads: &Payloads, fetch: &FetchGrant) -> Result<Vec<u8>> {
    let mut bytes = Vec::new(alloc);
    for place in 0..fetch.job.parts.len() {
        let part = fetch.job.parts.get(place).context("a part is wanted")?;
        let end = part.at.saturating_add(part.len);
        let mirrored = payloads.mirrored(part.url.as_str())?;
        let wanted = mirrored.get(part.at as usize..end as usize);
        bytes.extend_from_slice(wanted.context("the mirror has less")?)?;
    }
    Ok(bytes)
}
