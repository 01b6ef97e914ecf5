// What is told of how a download ended.
ghost use Rattle.std.specs.Prelude.{◌≡◌, IfOk};
ghost use Rattle.std.specs.Option.{option_map};
ghost use Rattle.run_report.specs.Ends as spec;
ghost use Rattle.run_report.specs.Ends.{AreEnds};
ghost use Rattle.run_report.specs.Failures as failures;
ghost use Rattle.dl_kinds.specs.ExitStatuses as statuses;

use crate::{code_by, end_in, ends_of};
use dl_kinds::{Gid, Status, Text, words_of_code};
use machine_core::{End, Event, Machine};
use std::alloc::{AllocError, Global};
use std::collections::BTreeMap;

/// Where the end of a download is looked for.
#[derive(Drop)]
pub(crate) enum Ends {
    /// In the journal, from its end on.
    Sought,
    /// Among the ends of all downloads, which were gathered from the journal.
    Gathered(BTreeMap<u64, End>),
}

// The end of a download that an event is.
fn end_by(event: &Event, gid: Gid) -> Option<End>
    ensures { result ≡ failures.end_by gid event.now }
{
    match event {
        Event::Ended { gid: ended, end } => { if ended.0 == gid.0 { Some(*end) } else { None } }
        _ => None,
    }
}

// How a download ended, if it did. It looks back from the newest event to that end.
fn end_of(machine: &Machine, gid: Gid) -> Option<End>
    ensures { result ≡ failures.end_of machine.now.past gid }
{
    let journal = machine.journal();
    let count = journal.len();
    for back in 0..count {
        let event = journal.get(count - 1 - back).unwrap();
        if let Some(end) = end_by(event, gid) {
            return Some(end);
        }
    }
    None
}

impl Ends {
    /// Where the ends of these downloads are looked for: where several failed, the journal is gone through but once.
    pub(crate) fn of(machine: &Machine, alloc: Global, gids: &[Gid]) -> Result<Self, AllocError>
        ensures { IfOk result (λ ends. AreEnds ends machine.now.past) }
    {
        let failed = gids
            .iter()
            .filter(|gid| matches!(machine.status(**gid), Some(Status::Failed)))
            .count();
        if failed > 1 {
            Ok(Ends::Gathered(ends_of(alloc, machine.journal())?))
        } else {
            Ok(Ends::Sought)
        }
    }

    fn end(&self, machine: &Machine, gid: Gid) -> Option<End>
        requires { AreEnds self.now machine.now.past }
        ensures { result ≡ failures.end_of machine.now.past gid }
    {
        match self {
            Ends::Sought => end_of(machine, gid),
            Ends::Gathered(ends) => end_in(ends, gid),
        }
    }

    /// The exit status that is told of a download of this status. Only where it failed its end is looked for.
    pub(crate) fn error_code(&self, machine: &Machine, gid: Gid, status: Status) -> Option<u8>
        requires { AreEnds self.now machine.now.past }
        ensures { result ≡ spec.error_code status (failures.end_of machine.now.past gid) }
    {
        match status {
            Status::Complete => Some(0),
            Status::Failed => Some(code_by(self.end(machine, gid))),
            _ => None,
        }
    }
}

/// .. in words.
pub(crate) fn error_message(alloc: Global, code: Option<u8>) -> Result<Option<Text>, AllocError>
    ensures { IfOk result (λ words. words ≡ option_map statuses.words_of_code code) }
{
    match code {
        Some(code) => Ok(Some(Text::of(alloc, words_of_code(code))?)),
        None => Ok(None),
    }
}

/// .. as it is told.
pub(crate) fn told_code(code: Option<u8>) -> Option<u64>
    ensures { result ≡ code }
{
    match code {
        Some(code) => Some(code as u64),
        None => None,
    }
}
