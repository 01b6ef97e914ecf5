// What the words of a command line mean.
ghost use Rattle.option_set.specs.declared.setting.OptErr.TheVariants as opt_err;
ghost use Rattle.std.specs.Prelude.{◌≡◌, ◌↔◌, IsTrue, map, string_bytes, IfOk, MatchOption};
ghost use Rattle.command_line.specs.Found.{IsFoundLine, found_console};
ghost use Rattle.command_line.specs.Lines.{IsLine};

use crate::Source;
use crate::command::{OTHERS, is_given, matches_of};
use crate::options::read_options;
use crate::source::source_of;
use clap::ArgMatches;
use clap::error::ErrorKind;
use dl_kinds::NoMemory;
use option_set::{Num, Opt, OptErr, Options, Settings};
use std::alloc::Global;

/// What a command line means.
#[derive(Debug, Drop)]
pub struct CommandLine {
    /// The values for all downloads.
    pub globals: Options,
    /// The settings of the download that the words name.
    pub settings: Settings,
    pub source: Source,
}

fn has_console(matches: &ArgMatches) -> bool
    ensures { result ≡ found_console matches.now }
{
    match matches.get_str("enable-rpc") {
        Some(text) => is_given(Opt::Num(Num::EnableRpc), text),
        None => false,
    }
}

fn is_want_of_memory(fault: OptErr) -> bool
    ensures { IsTrue result ↔ (fault ≡ opt_err.NoMemory) }
{
    matches!(fault, OptErr::NoMemory)
}

// What a parse that succeeded means.
fn line_of(alloc: Global, matches: &ArgMatches) -> Result<Option<CommandLine>, NoMemory>
    ensures { IfOk result (λ read. MatchOption read
        ((line : CommandLine) → IsFoundLine matches.now line → ⊥)
        (IsFoundLine matches.now)) }
{
    let console = has_console(matches);
    let options = match read_options(alloc, matches, &Opt::ALL, console) {
        Ok(options) => options,
        Err(fault) if is_want_of_memory(fault) => return Err(NoMemory),
        Err(_) => return Ok(None),
    };
    match source_of(alloc, matches.get_strs(OTHERS), console)? {
        Some(source) => Ok(Some(CommandLine {
            globals: options.globals,
            settings: options.settings,
            source,
        })),
        None => Ok(None),
    }
}

/// Reads the words that stand behind the program's name. None where they have no meaning: an option that the command doesn't
/// have or that stands twice, a value that is missing or that the option may not have, a word that is neither an `http` URL
/// nor, as the first one, a metainfo file's name; too many URIs; and no word at all without `--enable-rpc`.
pub fn read(alloc: Global, words: &[String]) -> Result<Option<CommandLine>, NoMemory>
    ensures { IfOk result (λ read. MatchOption read
        ((line : CommandLine) → IsLine (map string_bytes words.now) line → ⊥)
        (IsLine (map string_bytes words.now))) }
{
    match matches_of(alloc, words) {
        Ok(matches) => line_of(alloc, &matches),
        Err(error) if error.kind() == ErrorKind::OutOfMemory => Err(NoMemory),
        Err(_) => Ok(None),
    }
}
