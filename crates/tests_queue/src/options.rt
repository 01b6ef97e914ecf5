// Values of options, and what is read of them.
use option_set::{
    Num, Opt, OptErr, Options, Row, Scope, Setting, Settings, Spelling, WordUse, read,
};
use std::alloc::Global;
use test_lines::{Output, after, before, spelled_text};

/// Longer values aren't shown.
const LONG: usize = 300;

/// What a line asks of an option.
#[derive(Clone, Copy)]
pub enum OptionLine {
    Read,
    Row,
    Defaults,
}

// Adds the value of an option, if it has one; 0 and 1 are the truth values.
fn add_value(options: &Options, option: Opt, output: &mut Output) {
    match option {
        Opt::Num(num) => output.number(options.number(num)),
        Opt::Word(word) => output.text(options.text(word).unwrap_or("no value")),
    }
}

// Whether an option has the same value in both.
fn is_same(one: &Options, other: &Options, option: Opt) -> bool {
    match option {
        Opt::Num(num) => one.number(num) == other.number(num),
        Opt::Word(word) => one.text(word) == other.text(word),
    }
}

fn add_others(options: &Options, defaults: &Options, output: &mut Output) {
    for option in Opt::ALL {
        if !is_same(options, defaults, option) {
            output.letter(' ');
            output.text(option.row().name);
            output.letter('=');
            add_value(options, option, output);
        }
    }
}

/// Adds the options that don't have their default, each with its value and a space in front.
pub fn add_other_values(alloc: Global, options: &Options, output: &mut Output) {
    if let Ok(defaults) = Options::new(alloc) {
        add_others(options, &defaults, output);
    }
}

fn apply_all(alloc: Global, options: &mut Options, settings: &Settings) {
    for place in 0..settings.len() {
        if let Some(setting) = settings.get(place) {
            if let Ok(setting) = setting.copy(alloc) {
                options.apply(setting);
            }
        }
    }
}

/// Adds the options that these settings set to another value than their default.
pub fn add_set_values(alloc: Global, settings: &Settings, output: &mut Output) {
    if let Ok(mut options) = Options::new(alloc) {
        apply_all(alloc, &mut options, settings);
        add_other_values(alloc, &options, output);
    }
}

// Adds a value that was set by a text, as calls show it: a long one only if it differs from the text.
fn add_shown(text: &str, shown: &str, output: &mut Output) {
    if text.len() > LONG && shown == text {
        output.counted("= as it stands, ", text.len() as u64);
        output.text(" bytes");
    } else {
        output.text("= ");
        output.text(shown);
    }
}

// Adds what `getGlobalOption` shows of an option; false where it shows none.
fn adds_global(
    alloc: Global,
    options: &Options,
    name: &str,
    text: &str,
    output: &mut Output,
) -> bool {
    if let Ok(all) = options.shown(alloc, Scope::Global) {
        for (shown, value) in all.iter() {
            if shown.as_str() == name {
                add_shown(text, value.as_str(), output);
                return true;
            }
        }
    }
    false
}

// Adds what is shown of an option that a setting sets, or the value that it hides.
fn add_taken(alloc: Global, name: &str, text: &str, setting: Setting, output: &mut Output) {
    let option = setting.option();
    if let Ok(mut options) = Options::new(alloc) {
        options.apply(setting);
        if !adds_global(alloc, &options, name, text, output) {
            output.text("hidden = ");
            add_value(&options, option, output);
        }
    }
}

fn add_fault(fault: OptErr, output: &mut Output) {
    match fault {
        OptErr::Unknown => output.text("unknown"),
        OptErr::BadValue => output.text("bad"),
        OptErr::OutOfRange { least, most } => {
            output.counted("range ", least);
            output.counted(" ", most);
        }
        OptErr::NoMemory => output.text("out of memory"),
    }
}

// Adds what is read of a value of an option.
fn add_reading(alloc: Global, name: &str, parts: &str, output: &mut Output) {
    let text = spelled_text(alloc, parts);
    match read(alloc, name, text.as_str()) {
        Ok(setting) => add_taken(alloc, name, text.as_str(), setting, output),
        Err(fault) => add_fault(fault, output),
    }
}

fn add_all(options: &Options, alloc: Global, scope: Scope, output: &mut Output) {
    if let Ok(all) = options.shown(alloc, scope) {
        let mut gap = "";
        for (name, value) in all.iter() {
            output.text(gap);
            output.text(name.as_str());
            output.letter('=');
            output.text(value.as_str());
            gap = " ";
        }
    }
}

// Adds what is shown of the options before anything is set.
fn add_defaults(alloc: Global, scope: Scope, output: &mut Output) {
    if let Ok(options) = Options::new(alloc) {
        add_all(&options, alloc, scope, output);
    }
}

fn scope_word(scope: Scope) -> &'static str {
    match scope {
        Scope::Download => "; each download",
        Scope::Global => "; the program",
    }
}

// Who changes an option.
fn change_word(option: Opt) -> &'static str {
    match (option.is_changed_by_option(), option.is_changed_globally()) {
        (true, true) => "; changeOption changeGlobalOption",
        (false, true) => "; changeGlobalOption",
        (true, false) => "; changeOption",
        (false, false) => "; nothing",
    }
}

// Where an option stands on the command line.
fn use_word(word_use: WordUse) -> &'static str {
    match word_use {
        WordUse::Absent => "; no",
        WordUse::OwnCall => "; own",
        WordUse::GlobalValue => "; yes",
    }
}

// Adds the limits of a number, and how it is spelled.
fn add_limits(num: Num, output: &mut Output) {
    let row = num.row();
    output.text(match row.spelling {
        Spelling::Plain => "number ",
        Spelling::Size => "size ",
        Spelling::Truth => "truth ",
    });
    output.number(row.least);
    output.counted(" to ", row.most);
}

fn add_kind(option: Opt, output: &mut Output) {
    match option {
        Opt::Num(num) => add_limits(num, output),
        Opt::Word(word) => output.debug(&word.row().rule),
    }
}

fn add_row(option: Opt, row: &Row, output: &mut Output) {
    output.letter(row.short.unwrap_or('-'));
    output.text("; ");
    add_kind(option, output);
    output.text(scope_word(row.scope));
    output.text(change_word(option));
    output.text(use_word(row.word_use));
}

/// Adds what comes of a line on options.
pub fn add_option_line(alloc: Global, kind: OptionLine, rest: &str, output: &mut Output) {
    let name = before(rest, ' ');
    match kind {
        OptionLine::Read => add_reading(alloc, name, after(rest, ' '), output),
        OptionLine::Row => match Opt::named(name) {
            Some(option) => add_row(option, &option.row(), output),
            None => output.text("unknown"),
        },
        OptionLine::Defaults => {
            let scope = if name == "global" {
                Scope::Global
            } else {
                Scope::Download
            };
            add_defaults(alloc, scope, output);
        }
    }
}
