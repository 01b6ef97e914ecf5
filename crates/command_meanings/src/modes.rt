// The words of what is done without downloads: by each a command of its own, whose options have long names and one value each.
ghost use Rattle.std.specs.Prelude.{◌≡◌, ◌↔◌, ℕ, None, Some, IfSome, IsTrue, IfOk, MatchOption, codes, map, option_map, string_bytes};
ghost use Rattle.clap.specs.Faults.{fault_of};
ghost use Rattle.clap.specs.Kinds.{FailsBy};
ghost use Rattle.clap.specs.Simple.{HasMatchesOf, app_of, with_rule};
ghost use Rattle.clap.specs.Walk.{rule_of};
ghost use Rattle.clap.specs.declared.builder.action.ArgAction.TheVariants.{Set};
ghost use Rattle.command_line.specs.Command.{empty_app, named_rule};
ghost use Rattle.clap.specs.Matches.{first_value, found_of};
ghost use Rattle.option_set.specs.Settings.{MeetsRule};
ghost use Rattle.option_set.specs.declared.kinds.Rule.TheVariants.{Folder};
ghost use Rattle.command_meanings.specs.Modes.{AreCheckWords, AreServeWords, IsFoundCheck, IsFoundServe, IsPortOf, check_app, serve_app};

use clap::error::ErrorKind;
use clap::{Arg, ArgAction, ArgMatches, Command, Error};
use dl_kinds::{NoMemory, Text};
use option_set::{Num, OptErr, Options, read};
use std::alloc::{AllocError, Global};

/// The option that names the folder that is served.
const SERVE_DIR: &str = "serve-dir";

const PORT: &str = "rpc-listen-port";

/// The option that names the metainfo file whose payload is checked.
const VERIFY_V2: &str = "verify-v2";

const DIR: &str = "dir";

const COPY_DIR: &str = "copy-dir";

/// The folder where the words name none.
const WORKING_DIR: &str = ".";

/// A folder is to be served over HTTP.
#[derive(Debug, Drop)]
pub struct ServeLine {
    /// The folder.
    pub dir: Text,
    /// The port of 127.0.0.1.
    pub port: u16,
}

/// The payload of a version 2 torrent is to be checked, and repaired if a copy is named.
#[derive(Debug, Drop)]
pub struct CheckLine {
    /// The name of the metainfo file.
    pub file: Text,
    /// The folder of the payload.
    pub dir: Text,
    /// The folder of another copy.
    pub copy: Option<Text>,
}

// ---- commands

fn with_option<'a>(
    alloc: Global,
    command: Command<'a>,
    name: &'a str,
) -> Result<Command<'a>, AllocError>
    ensures { IfOk result (λ with. app_of with
        ≡ with_rule (app_of command.entry) (named_rule name.now None Set)) }
{
    command.arg(Arg::new(alloc, name).long(name).action(ArgAction::Set))
}

fn empty_command<'a>(alloc: Global) -> Command<'a>
    ensures { app_of result ≡ empty_app }
{
    Command::new(alloc, "aria_cli")
        .no_binary_name(true)
        .disable_help_flag(true)
        .disable_version_flag(true)
}

fn serve_command<'a>(alloc: Global) -> Result<Command<'a>, AllocError>
    ensures { IfOk result (λ command. app_of command ≡ serve_app) }
{
    let command = with_option(alloc, empty_command(alloc), SERVE_DIR)?;
    with_option(alloc, command, PORT)
}

fn check_command<'a>(alloc: Global) -> Result<Command<'a>, AllocError>
    ensures { IfOk result (λ command. app_of command ≡ check_app) }
{
    let command = with_option(alloc, empty_command(alloc), VERIFY_V2)?;
    let command = with_option(alloc, command, DIR)?;
    with_option(alloc, command, COPY_DIR)
}

fn serve_matches<'a>(alloc: Global, words: &'a [String]) -> Result<ArgMatches<'a>, Error>
    ensures found { IfOk result (HasMatchesOf serve_app (map string_bytes words.now)) }
    ensures fails { FailsBy (fault_of serve_app (map string_bytes words.now)) result }
{
    match serve_command(alloc) {
        Ok(command) => command.try_get_matches_from(words),
        Err(error) => Err(Error::from(error)),
    }
}

fn check_matches<'a>(alloc: Global, words: &'a [String]) -> Result<ArgMatches<'a>, Error>
    ensures found { IfOk result (HasMatchesOf check_app (map string_bytes words.now)) }
    ensures fails { FailsBy (fault_of check_app (map string_bytes words.now)) result }
{
    match check_command(alloc) {
        Ok(command) => command.try_get_matches_from(words),
        Err(error) => Err(Error::from(error)),
    }
}

// ---- values

// Whether a folder or a file may have this name: it isn't empty and has no NUL.
fn is_folder_name(text: &str) -> bool
    ensures { IsTrue result ↔ MeetsRule Folder text.now }
{
    !text.is_empty() && !text.as_bytes().contains(&0)
}

// The port that the words name, or the one without words, if it may be one.
fn port_of(alloc: Global, matches: &ArgMatches) -> Result<Option<u16>, NoMemory>
    ensures { IfOk result (λ found. MatchOption found
        ((port : ℕ) → IsPortOf (first_value (found_of matches.now) (codes "rpc-listen-port")) port → ⊥)
        (IsPortOf (first_value (found_of matches.now) (codes "rpc-listen-port")))) }
{
    let mut options = Options::new(alloc)?;
    if let Some(text) = matches.get_str(PORT) {
        match read(alloc, PORT, text) {
            Ok(setting) => options.apply(setting),
            Err(OptErr::NoMemory) => return Err(NoMemory),
            Err(_) => return Ok(None),
        }
    }
    Ok(Some(options.number(Num::RpcListenPort) as u16))
}

fn is_copy_name(copy: Option<&str>) -> bool
    ensures { IsTrue result ↔ IfSome (option_map (λ name. name.now) copy.entry) (MeetsRule Folder) }
{
    match copy {
        Some(name) => is_folder_name(name),
        None => true,
    }
}

fn text_if_any(alloc: Global, text: Option<&str>) -> Result<Option<Text>, NoMemory>
    ensures { IfOk result (λ own. own ≡ option_map (λ text. text.now) text.entry) }
{
    match text {
        Some(text) => Ok(Some(Text::of(alloc, text)?)),
        None => Ok(None),
    }
}

// ---- lines

fn serve_line(alloc: Global, matches: &ArgMatches) -> Result<Option<ServeLine>, NoMemory>
    ensures { IfOk result (λ found. MatchOption found
        ((line : ServeLine) → IsFoundServe matches.now line → ⊥)
        (IsFoundServe matches.now)) }
{
    let Some(dir) = matches.get_str(SERVE_DIR) else {
        return Ok(None);
    };
    if !is_folder_name(dir) {
        return Ok(None);
    }
    let Some(port) = port_of(alloc, matches)? else {
        return Ok(None);
    };
    let dir = Text::of(alloc, dir)?;
    Ok(Some(ServeLine { dir, port }))
}

fn check_line(alloc: Global, matches: &ArgMatches) -> Result<Option<CheckLine>, NoMemory>
    ensures { IfOk result (λ found. MatchOption found
        ((line : CheckLine) → IsFoundCheck matches.now line → ⊥)
        (IsFoundCheck matches.now)) }
{
    let Some(file) = matches.get_str(VERIFY_V2) else {
        return Ok(None);
    };
    let dir = matches.get_str(DIR).unwrap_or(WORKING_DIR);
    let copy = matches.get_str(COPY_DIR);
    if !is_folder_name(file) || !is_folder_name(dir) || !is_copy_name(copy) {
        return Ok(None);
    }
    let file = Text::of(alloc, file)?;
    let dir = Text::of(alloc, dir)?;
    let copy = text_if_any(alloc, copy)?;
    Ok(Some(CheckLine { file, dir, copy }))
}

/// Reads words that ask for a folder to be served: `--serve-dir=DIR`, and `--rpc-listen-port=PORT` at will.
pub(crate) fn read_serve(alloc: Global, words: &[String]) -> Result<Option<ServeLine>, NoMemory>
    ensures { IfOk result (λ found. MatchOption found
        ((line : ServeLine) → AreServeWords (map string_bytes words.now) line → ⊥)
        (AreServeWords (map string_bytes words.now))) }
{
    match serve_matches(alloc, words) {
        Ok(matches) => serve_line(alloc, &matches),
        Err(error) if error.kind() == ErrorKind::OutOfMemory => Err(NoMemory),
        Err(_) => Ok(None),
    }
}

/// Reads words that ask for a check: `--verify-v2=FILE`, and `--dir=DIR` and `--copy-dir=DIR` at will.
pub(crate) fn read_check(alloc: Global, words: &[String]) -> Result<Option<CheckLine>, NoMemory>
    ensures { IfOk result (λ found. MatchOption found
        ((line : CheckLine) → AreCheckWords (map string_bytes words.now) line → ⊥)
        (AreCheckWords (map string_bytes words.now))) }
{
    match check_matches(alloc, words) {
        Ok(matches) => check_line(alloc, &matches),
        Err(error) if error.kind() == ErrorKind::OutOfMemory => Err(NoMemory),
        Err(_) => Ok(None),
    }
}
