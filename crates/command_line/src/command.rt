// The command, as clap reads words by it.
ghost use Rattle.std.specs.Prelude.{◌≡◌, ◌∷◌, [], None, Some, false, map, filter, take, string_bytes, IfOk, IsTrue};
ghost use Rattle.clap.specs.Faults.{fault_of};
ghost use Rattle.clap.specs.Kinds.{FailsBy};
ghost use Rattle.clap.specs.Simple.{HasMatchesOf, app_of, with_rule};
ghost use Rattle.clap.specs.Walk.{rule_of};
ghost use Rattle.option_set.specs.Table.{all_options};
ghost use Rattle.command_line.specs.Command.{command_app, empty_app, is_flag, is_given, is_word_option, named_rule, option_action, others_rule, with_options};

use clap::{Arg, ArgAction, ArgMatches, Command, Error};
use option_set::{Opt, Spelling, WordUse};
use std::alloc::{AllocError, Global};

/// The name under which the words that belong to no option are found.
pub const OTHERS: &str = "uri";

fn is_flag(option: Opt) -> bool
    ensures { result ≡ is_flag option }
{
    match option {
        Opt::Num(num) => num.row().spelling == Spelling::Truth,
        Opt::Word(_) => false,
    }
}

/// Whether the text is a value that the words give the option: a flag that isn't there has the text `false`.
pub fn is_given(option: Opt, text: &str) -> bool
    ensures { result ≡ is_given option text.now }
{
    !is_flag(option) || text == "true"
}

/// Whether the command has the option.
pub fn is_word_option(option: Opt) -> bool
    ensures { result ≡ is_word_option option }
{
    option.row().word_use != WordUse::Absent
}

fn action_of(option: Opt) -> ArgAction
    ensures { result ≡ option_action option }
{
    if is_flag(option) {
        ArgAction::SetTrue
    } else {
        ArgAction::Set
    }
}

fn long_arg<'a>(alloc: Global, name: &'a str, action: ArgAction) -> Arg<'a>
    ensures rule { rule_of result ≡ named_rule name.now None action }
    ensures local { result.global ≡ false }
{
    Arg::new(alloc, name).long(name).action(action)
}

fn short_arg<'a>(alloc: Global, name: &'a str, letter: char, action: ArgAction) -> Arg<'a>
    ensures rule { rule_of result ≡ named_rule name.now (Some letter) action }
    ensures local { result.global ≡ false }
{
    Arg::new(alloc, name)
        .long(name)
        .short(letter)
        .action(action)
}

fn others_arg<'a>(alloc: Global) -> Arg<'a>
    ensures rule { rule_of result ≡ others_rule }
    ensures local { result.global ≡ false }
{
    Arg::new(alloc, OTHERS)
        .action(ArgAction::Append)
        .num_args(0..)
}

fn empty_command<'a>(alloc: Global) -> Command<'a>
    ensures { app_of result ≡ empty_app }
{
    Command::new(alloc, "aria_cli")
        .no_binary_name(true)
        .disable_help_flag(true)
        .disable_version_flag(true)
}

fn with_named<'a>(
    alloc: Global,
    command: Command<'a>,
    name: &'a str,
    letter: Option<char>,
    action: ArgAction,
) -> Result<Command<'a>, AllocError>
    ensures { IfOk result (λ with. app_of with
        ≡ with_rule (app_of command.entry) (named_rule name.now letter action)) }
{
    match letter {
        Some(letter) => command.arg(short_arg(alloc, name, letter, action)),
        None => command.arg(long_arg(alloc, name, action)),
    }
}

fn with_option<'a>(
    alloc: Global,
    command: Command<'a>,
    option: Opt,
) -> Result<Command<'a>, AllocError>
    ensures { IfOk result (λ with. app_of with
        ≡ with_options (app_of command.entry) (filter is_word_option (option ∷ []))) }
{
    if !is_word_option(option) {
        return Ok(command);
    }
    let row = option.row();
    with_named(alloc, command, row.name, row.short, action_of(option))
}

fn with_all<'a>(
    alloc: Global,
    base: Command<'a>,
    options: &[Opt],
) -> Result<Command<'a>, AllocError>
    ensures { IfOk result (λ with. app_of with
        ≡ with_options (app_of base.entry) (filter is_word_option options.now)) }
{
    let mut command = base;
    for option in options {
        command = with_option(alloc, command, *option)?;
    }
    Ok(command)
}

fn command<'a>(alloc: Global) -> Result<Command<'a>, AllocError>
    ensures { IfOk result (λ command. app_of command ≡ command_app) }
{
    let command = with_all(alloc, empty_command(alloc), &Opt::ALL)?;
    command.arg(others_arg(alloc))
}

/// What the words hold, by the command.
pub fn matches_of<'a>(alloc: Global, words: &'a [String]) -> Result<ArgMatches<'a>, Error>
    ensures found { IfOk result (HasMatchesOf command_app (map string_bytes words.now)) }
    ensures fails { FailsBy (fault_of command_app (map string_bytes words.now)) result }
{
    match command(alloc) {
        Ok(command) => command.try_get_matches_from(words),
        Err(error) => Err(Error::from(error)),
    }
}
