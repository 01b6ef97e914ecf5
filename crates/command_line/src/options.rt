// The options of a command line.
ghost use Rattle.std.specs.Prelude.{◌≡◌, ◌≢◌, [], ◌∷◌, List, filter, fold, IfOk, IfErr, OnOk};
ghost use Rattle.option_set.specs.declared.setting.Assigned.{Assigned};
ghost use Rattle.option_set.specs.declared.setting.OptErr.TheVariants.{NoMemory};
ghost use Rattle.option_set.specs.Table.{table_row};
ghost use Rattle.option_set.specs.Values.{default_values};
ghost use Rattle.command_line.specs.Command.{is_word_option};
ghost use Rattle.command_line.specs.Found.{MakeOptions, TakesOption, TakesSetting, found_text, list_of};
ghost use Rattle.command_line.specs.Lines.{AreSettingsIn, AreSettingsOf, is_global_use, is_own_setting, is_pause, with_global};

use crate::command::{is_given, is_word_option};
use clap::ArgMatches;
use option_set::{Num, Opt, OptErr, Options, Setting, Settings, WordUse, read};
use std::alloc::{AllocError, Global};

/// The values for all downloads, and the settings of the one that the words name.
#[derive(Debug, Drop)]
pub struct LineOptions {
    pub globals: Options,
    pub settings: Settings,
}

fn is_global(option: Opt) -> bool
    ensures { result ≡ is_global_use (table_row option).use_of }
{
    option.row().word_use == WordUse::GlobalValue
}

fn is_pause(option: Opt) -> bool
    ensures { result ≡ is_pause option }
{
    option == Opt::Num(Num::Pause)
}

// What the words make of an option.
fn setting_of(alloc: Global, matches: &ArgMatches, option: Opt) -> Result<Option<Setting>, OptErr>
    ensures found { IfOk result (λ setting.
        AreSettingsOf option (found_text matches.now option) (list_of setting)) }
    ensures refused { IfErr result (λ fault. fault ≢ NoMemory → (settings : List Assigned)
        → AreSettingsOf option (found_text matches.now option) settings → ⊥) }
{
    let name = option.row().name;
    match matches.get_str(name) {
        Some(value) if is_given(option, value) => Ok(Some(read(alloc, name, value)?)),
        _ => Ok(None),
    }
}

fn take_setting(line: &mut LineOptions, setting: Setting, console: bool) -> Result<(), AllocError>
    ensures { OnOk result (TakesSetting console setting line.old line.new) }
{
    let option = setting.option();
    if is_global(option) {
        line.globals.apply(setting);
        return Ok(());
    }
    if console || !is_pause(option) {
        line.settings.push(setting)?;
    }
    Ok(())
}

// What the words make of an option, if the command has it.
fn take_option(
    alloc: Global,
    matches: &ArgMatches,
    option: Opt,
    console: bool,
    line: &mut LineOptions,
) -> Result<(), OptErr>
    ensures taken { OnOk result
        (TakesOption console (found_text matches.now) option line.old line.new) }
    ensures refused { IfErr result (λ fault. fault ≢ NoMemory → (settings : List Assigned)
        → AreSettingsIn (found_text matches.now) (filter is_word_option (option ∷ [])) settings → ⊥) }
{
    if !is_word_option(option) {
        return Ok(());
    }
    match setting_of(alloc, matches, option)? {
        Some(setting) => Ok(take_setting(line, setting, console)?),
        None => Ok(()),
    }
}

/// What the words make of these options.
pub fn read_options(
    alloc: Global,
    matches: &ArgMatches,
    options: &[Opt],
    console: bool,
) -> Result<LineOptions, OptErr>
    ensures found { IfOk result (λ line.
        MakeOptions (filter is_word_option options.now) console (found_text matches.now) line) }
    ensures refused { IfErr result (λ fault. fault ≢ NoMemory → (settings : List Assigned)
        → AreSettingsIn (found_text matches.now) (filter is_word_option options.now) settings → ⊥) }
{
    let mut line = LineOptions {
        globals: Options::new(alloc)?,
        settings: Settings::new(alloc),
    };
    for option in options {
        take_option(alloc, matches, *option, console, &mut line)?;
    }
    Ok(line)
}
