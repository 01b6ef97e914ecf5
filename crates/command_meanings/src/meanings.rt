// What words mean.
ghost use Rattle.std.specs.Prelude.{◌≡◌, ℕ, IfOk, MatchOption, Ok, Some, map, string_bytes};
ghost use Rattle.command_meanings.specs.Meanings.{AskForLoad, AskForNoRun, HaveMeaning, LackMeaning};
ghost use Rattle.command_meanings.specs.declared.meanings.Meaning.TheVariants.{Load};

use crate::modes::{CheckLine, ServeLine, read_check, read_serve};
use command_line::{CommandLine, read};
use dl_kinds::NoMemory;
use load_setup::load_of;
use std::alloc::Global;

/// What the words of a command line ask for.
#[derive(Debug, Drop)]
pub enum Meaning {
    /// Downloads, by the options of the line; with a console also those that its clients add.
    Download(CommandLine),
    /// The load of this number.
    Load(u64),
    /// A folder is served over HTTP.
    Serve(ServeLine),
    /// The payload of a version 2 torrent is checked, and repaired from a copy.
    Check(CheckLine),
}

// What words ask for that ask for neither a load nor downloads.
fn other_meaning_of(alloc: Global, words: &[String]) -> Result<Option<Meaning>, NoMemory>
    requires { AskForNoRun (map string_bytes words.now) }
    ensures { IfOk result (λ found. MatchOption found
        (LackMeaning (map string_bytes words.now))
        (HaveMeaning (map string_bytes words.now))) }
{
    if let Some(line) = read_serve(alloc, words)? {
        return Ok(Some(Meaning::Serve(line)));
    }
    match read_check(alloc, words)? {
        Some(line) => Ok(Some(Meaning::Check(line))),
        None => Ok(None),
    }
}

/// What the words ask for that stand behind the program's name. None where they have no meaning: they are neither the one word
/// `--self-load=N`, with a decimal below 2^64 without a leading zero, nor a command line of downloads, nor `--serve-dir=DIR`
/// with `--rpc-listen-port=PORT` at will, nor `--verify-v2=FILE` with `--dir=DIR` and `--copy-dir=DIR` at will. To tell a load
/// takes no memory.
pub fn meaning_of(alloc: Global, words: &[String]) -> Result<Option<Meaning>, NoMemory>
    ensures means { IfOk result (λ found. MatchOption found
        (LackMeaning (map string_bytes words.now))
        (HaveMeaning (map string_bytes words.now))) }
    ensures load { (n : ℕ) → AskForLoad (map string_bytes words.now) n → result ≡ Ok (Some (Load n)) }
{
    if let Some(n) = load_of(words) {
        return Ok(Some(Meaning::Load(n)));
    }
    match read(alloc, words)? {
        Some(line) => Ok(Some(Meaning::Download(line))),
        None => other_meaning_of(alloc, words),
    }
}
