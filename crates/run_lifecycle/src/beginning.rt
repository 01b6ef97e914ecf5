// How a run begins.
ghost use Rattle.std.specs.Prelude.{◌≡◌, IfErr, IfOk, IfSome, map, string_bytes};
ghost use Rattle.command_line.specs.Lines.{IsLine};
ghost use Rattle.machine_core.specs.LawfulCalls.{IsLawful};
ghost use Rattle.run_lifecycle.specs.Begins as specs;
ghost use Rattle.run_lifecycle.specs.Begins.{HasBegun, IsDeskOf, IsUnbegun, RefusesWords, TakesCall};

use crate::console::{ConsoleTerms, console_of, doors_used};
use crate::ends::ending_of_source;
use command_call::{first_call, lines_are_lawful};
use command_line::{CommandLine, read};
use dl_disk::Disk;
use dl_kinds::Moment;
use engine_core::Engine;
use engine_turns::{Operation, Said};
use machine_core::Call;
use option_set::Options;
use run_report::RunEnding;
use std::alloc::Global;
use turn_desk::{Desk, SoloDesk, a_sole_owner_took_all, turns_add_up};

/// A desk at which the command line's own call was taken.
pub struct Begun<D: Disk> {
    pub desk: SoloDesk<Engine<D>>,
    /// Memory was wanting for the call.
    pub is_short: bool,
    pub console: ConsoleTerms,
}

/// A run that didn't begin, and its disk.
pub struct Unbegun<D> {
    pub ending: RunEnding,
    pub disk: D,
}

// What the words mean.
fn line_of(alloc: Global, words: &[String]) -> Result<CommandLine, RunEnding>
    ensures line { IfOk result (IsLine (map string_bytes words.now)) }
    ensures refused { IfErr result (RefusesWords (map string_bytes words.now)) }
{
    match read(alloc, words) {
        Ok(Some(line)) => Ok(line),
        Ok(None) => Err(RunEnding::NoMeaning),
        Err(_) => Err(RunEnding::NoMemory),
    }
}

// A desk for a run on this disk, at which so many doors stand where its console is on.
fn desk_of<D: Disk>(
    alloc: Global,
    disk: D,
    gids: u64,
    doors: u16,
    globals: Options,
) -> Result<SoloDesk<Engine<D>>, D>
    ensures desk { IfOk result (IsDeskOf D.Disk disk gids doors globals) }
    ensures disk { IfErr result (λ given_back. given_back ≡ disk) }
{
    let doors = doors_used(&globals, doors);
    let engine = Engine::new(alloc, disk, gids, globals, doors)?;
    match SoloDesk::new(alloc, engine) {
        Ok(desk) => Ok(desk),
        Err((engine, _)) => Err(engine.into_parts().0),
    }
}

fn is_no_memory(said: &Said) -> bool
    ensures { result ≡ specs.is_no_memory said.now }
{
    matches!(said, Said::NoMemory)
}

// The command line's own call is taken, if it has one. Told is whether memory was wanting.
fn call_first<D: Disk>(desk: &mut SoloDesk<Engine<D>>, call: Option<Call>) -> bool
    requires { IfSome call IsLawful }
    ensures { TakesCall call desk.old desk.new result }
{
    turns_add_up::<Engine<D>>();
    match call {
        Some(call) => {
            let answer = desk.turn(Operation::Call {
                session: 0,
                call,
                now: Moment(0),
            });
            is_no_memory(&answer.said)
        }
        None => false,
    }
}

/// Reads the words, and the metainfo file that they name, and takes the command line's own call. `gids` is what the ids of
/// downloads are made from, `doors` how many doors the console has where the words turn it on.
pub fn begin<D: Disk>(
    alloc: Global,
    words: &[String],
    disk: D,
    gids: u64,
    doors: u16,
) -> Result<Begun<D>, Unbegun<D>>
    ensures begins { IfOk result (HasBegun D.Disk (map string_bytes words.now) gids doors disk) }
    ensures unbegun { IfErr result (IsUnbegun D.Disk (map string_bytes words.now) disk) }
{
    lines_are_lawful();
    let line = match line_of(alloc, words) {
        Ok(line) => line,
        Err(ending) => return Err(Unbegun { ending, disk }),
    };
    let CommandLine {
        globals,
        settings,
        source,
    } = line;
    let mut disk = disk;
    let call = match first_call(alloc, source, settings, &mut disk) {
        Ok(call) => call,
        Err(error) => {
            let ending = ending_of_source(error);
            return Err(Unbegun { ending, disk });
        }
    };
    let Ok(console) = console_of(alloc, &globals) else {
        let ending = RunEnding::NoMemory;
        return Err(Unbegun { ending, disk });
    };
    match desk_of(alloc, disk, gids, doors, globals) {
        Ok(mut desk) => {
            let is_short = call_first(&mut desk, call);
            a_sole_owner_took_all(&desk);
            Ok(Begun {
                desk,
                is_short,
                console,
            })
        }
        Err(disk) => {
            let ending = RunEnding::NoMemory;
            Err(Unbegun { ending, disk })
        }
    }
}
