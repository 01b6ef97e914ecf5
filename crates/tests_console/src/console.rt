// A console at the desk of a run, over a disk and doors in memory.
use crate::history::{are_calls, tally};
use crate::operations::{operation_of, shown_answer};
use crate::spelling::repeated_text;
use anyhow::{Context, Result, bail, ensure};
use console_session::{Transcript, serve_door};
use dl_clock::{LATEST_MOMENT, MemClock};
use dl_disk::MemDisk;
use dl_kinds::{Blob, Moment};
use door_source::MemDoors;
use engine_core::Engine;
use option_set::{Num, Options, Word, read};
use std::alloc::Global;
use std::sync::Wait;
use turn_desk::{Desk, SoloDesk};

/// More doors than any run of the cases has.
const DOORS: u16 = 1_000;

/// As much as a door gives at once.
pub const WHOLE: u32 = 65_536;

/// A console, and the moment.
#[derive(Drop)]
pub struct Console {
    desk: SoloDesk<Engine<MemDisk>>,
    secret: Option<String>,
    most: u32,
    now: u64,
    sessions: u32,
    // The session of each call, and the place of its event, as the transcripts tell them.
    noted: Vec<(u32, u32)>,
}

// The options of a run, by words as `split=3`.
fn options_of(alloc: Global, words: &str) -> Result<Options> {
    let mut options = Options::new(alloc)?;
    for word in words.split(' ') {
        if let Some((name, value)) = word.split_once('=') {
            let value = repeated_text(alloc, value)?;
            options.apply(read(alloc, name, value.as_str())?);
        }
    }
    Ok(options)
}

// The secret that the options set.
fn secret_of(alloc: Global, options: &Options) -> Result<Option<String>> {
    match options.text(Word::RpcSecret) {
        Some(secret) => Ok(Some(String::from_str(alloc, secret)?)),
        None => Ok(None),
    }
}

// A run in which nothing happened, whose disk is empty.
fn desk_of(alloc: Global, options: Options) -> Result<SoloDesk<Engine<MemDisk>>> {
    let disk = MemDisk::new(alloc, Vec::new(alloc), Vec::new(alloc))?;
    match Engine::new(alloc, disk, 1, options, DOORS) {
        Ok(engine) => SoloDesk::new(alloc, engine).ok().context("no desk"),
        Err(_) => bail!("no engine"),
    }
}

impl Console {
    /// A console of a run with these options, as `split=3`, in which nothing happened, and whose disk is empty.
    pub fn new(alloc: Global, words: &str) -> Result<Console> {
        let options = options_of(alloc, words)?;
        let secret = secret_of(alloc, &options)?;
        let most = u32::try_from(options.number(Num::RpcMaxRequestSize))?;
        Ok(Console {
            desk: desk_of(alloc, options)?,
            secret,
            most,
            now: 0,
            sessions: 0,
            noted: Vec::new(alloc),
        })
    }

    // Notes the places of a session's calls.
    fn note(&mut self, transcript: Transcript) -> Result<()> {
        ensure!(
            transcript.session == self.sessions && transcript.starved == 0,
            "another transcript"
        );
        for place in transcript.places {
            self.noted.push((self.sessions, place))?;
        }
        Ok(())
    }

    /// Serves a door to which these clients come, one behind another. It gives at most so many bytes at once, and the calls of
    /// these numbers fail.
    pub fn serve(
        &mut self,
        rt: &impl Wait,
        alloc: Global,
        clients: Vec<Blob>,
        cut: u32,
        failing: Vec<u64>,
    ) -> Result<MemDoors> {
        let mut door = MemDoors::new(alloc, clients, cut.max(1), failing)?;
        let mut clock = MemClock::new(self.now.min(LATEST_MOMENT), 0);
        self.sessions = self.sessions.saturating_add(1);
        let secret = self.secret.as_ref().map(|secret| secret.as_str());
        let transcript = serve_door(
            rt,
            alloc,
            &mut self.desk,
            self.sessions,
            secret,
            self.most,
            &mut door,
            &mut clock,
        );
        self.note(transcript)?;
        Ok(door)
    }

    /// How many calls the transcripts note.
    pub fn calls(&self) -> usize {
        self.noted.len()
    }

    /// Goes on to a moment.
    pub fn go_on(&mut self, ms: &str) -> Result<()> {
        self.now = ms.parse::<u64>()?;
        Ok(())
    }

    /// What the operation of a worker is answered.
    pub fn work(&mut self, alloc: Global, line: &str) -> Result<String> {
        let op = operation_of(alloc, line, Moment(self.now))?;
        shown_answer(alloc, &self.desk.turn(op).said)
    }

    /// Ends the run, and tells how many events of each kind its history has. The calls in it have to be those that the
    /// transcripts note, each at its place.
    pub fn end(self, alloc: Global) -> Result<String> {
        let Console { desk, noted, .. } = self;
        let (_disk, journal) = desk.into_served().into_parts();
        ensure!(
            are_calls(&journal, &noted),
            "the history has other calls than the transcripts"
        );
        tally(alloc, &journal)
    }
}
