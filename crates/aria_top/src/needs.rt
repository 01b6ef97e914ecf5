// What a run needs of the outside.
ghost use Rattle.std.specs.Prelude.{◌≡◌, ◌≤◌, IfOk, MatchOption, map, string_bytes};
ghost use Rattle.aria_top.specs.Needs.{AreNeeds, doors_by, links_by, needs_by, port_by};
ghost use Rattle.command_meanings.specs.Meanings.{LackMeaning};
ghost use Rattle.shared_run.specs.declared.limits.TheConstants.{MAX_LINKS};

use crate::limits::CONSOLE_DOORS;
use command_meanings::{Meaning, meaning_of};
use dl_kinds::NoMemory;
use option_set::{Num, Options};
use run_lifecycle::is_console_on;
use shared_run::MAX_LINKS;
use std::alloc::Global;

/// What a run of the words needs.
#[derive(Clone, Copy, Debug, PartialEq, Eq)]
pub struct Needs {
    /// One link for each worker.
    pub links: u16,
    /// Doors of the console, or of a folder that is served. None without one.
    pub doors: u16,
    /// The port at which they listen. 0 for a load and for a check.
    pub port: u16,
}

// As many workers as may work for one download; with a console, for all that may be active.
fn links_of(globals: &Options) -> u16
    ensures is { result ≡ links_by globals.now }
    ensures some { 1 ≤ result }
    ensures few { result ≤ MAX_LINKS }
{
    let split = globals.number(Num::Split);
    if is_console_on(globals) {
        let most = split * globals.number(Num::MaxConcurrentDownloads);
        most.min(u64::from(MAX_LINKS)) as u16
    } else {
        split as u16
    }
}

fn doors_of(globals: &Options) -> u16
    ensures { result ≡ doors_by globals.now }
{
    if is_console_on(globals) {
        CONSOLE_DOORS
    } else {
        0
    }
}

fn port_of(globals: &Options) -> u16
    ensures { result ≡ port_by globals.now }
{
    globals.number(Num::RpcListenPort) as u16
}

fn needs_by(meaning: &Meaning) -> Needs
    ensures is { result ≡ needs_by meaning.now }
    ensures some { 1 ≤ result.links }
    ensures few { result.links ≤ MAX_LINKS }
{
    match meaning {
        Meaning::Download(line) => Needs {
            links: links_of(&line.globals),
            doors: doors_of(&line.globals),
            port: port_of(&line.globals),
        },
        Meaning::Serve(line) => Needs {
            links: 1,
            doors: CONSOLE_DOORS,
            port: line.port,
        },
        // the link isn't used: a load has its own in memory, and a check none
        Meaning::Load(_) | Meaning::Check(_) => Needs {
            links: 1,
            doors: 0,
            port: 0,
        },
    }
}

/// What a run of these words needs, which stand behind the program's name. None where the words have no meaning.
pub fn needs_of(alloc: Global, words: &[String]) -> Result<Option<Needs>, NoMemory>
    ensures { IfOk result (λ needs. MatchOption needs (LackMeaning (map string_bytes words.now))
        (AreNeeds (map string_bytes words.now))) }
{
    match meaning_of(alloc, words)? {
        Some(meaning) => Ok(Some(needs_by(&meaning))),
        None => Ok(None),
    }
}
