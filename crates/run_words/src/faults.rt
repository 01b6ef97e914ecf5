// Which word of a command line is wrong.
use crate::modes::{Mode, mode_of};
use dl_kinds::{MAX_MIRRORS, NoMemory};
use link_source::{EndErr, Endpoint};
use option_set::{Num, Opt, OptErr, Spelling, read};
use std::alloc::Global;

/// What is wrong with a command line, with the word or the option that is.
#[derive(Clone, Copy, Debug, PartialEq, Eq)]
pub enum WordFault<'a> {
    /// Nothing is to be downloaded.
    NoWords,
    Unknown(&'a str),
    Twice(&'a str),
    LacksValue {
        name: &'a str,
        option: Opt,
    },
    TakesNoValue(&'a str),
    Value {
        name: &'a str,
        value: &'a str,
        option: Opt,
    },
    /// A URI of a scheme that isn't spoken.
    Scheme(&'a str),
    /// It is no URI, and no metainfo file's name where that may stand.
    NotUrl(&'a str),
    SecondMetainfo(&'a str),
    TooManyUris,
    /// A word that belongs to no option, in a line that takes none.
    Unexpected(&'a str),
    Load,
}

// What is found of a line, word by word.
#[derive(Drop)]
struct Reader<'a> {
    alloc: Global,
    mode: Mode,
    seen: Vec<&'a str>,
    others: Vec<&'a str>,
    // The option whose value the next word is.
    waiting: Option<(&'a str, Opt)>,
    // Behind `--` no word is an option.
    is_ended: bool,
}

type Found<'a> = Result<Option<WordFault<'a>>, NoMemory>;

fn is_flag(option: Opt) -> bool {
    match option {
        Opt::Num(num) => num.row().spelling == Spelling::Truth,
        Opt::Word(_) => false,
    }
}

fn is_dashed(word: &str) -> bool {
    word.starts_with('-') && word != "-"
}

// The option of the first of some letters, and the letters behind it.
fn lettered(letters: &str) -> Option<(Opt, &str)> {
    for option in Opt::ALL {
        if let Some(letter) = option.row().short {
            if let Some(rest) = letters.strip_prefix(letter) {
                return Some((option, rest));
            }
        }
    }
    None
}

fn uri_fault<'a>(alloc: Global, word: &'a str) -> Found<'a> {
    match Endpoint::of(alloc, word) {
        Ok(_) => Ok(None),
        Err(EndErr::Scheme) => Ok(Some(WordFault::Scheme(word))),
        Err(EndErr::NotUrl) if word.ends_with(".torrent") => {
            Ok(Some(WordFault::SecondMetainfo(word)))
        }
        Err(EndErr::NotUrl) => Ok(Some(WordFault::NotUrl(word))),
        Err(EndErr::NoMemory) => Err(NoMemory),
    }
}

fn uris_fault<'a>(alloc: Global, uris: &[&'a str]) -> Found<'a> {
    if uris.len() > MAX_MIRRORS as usize {
        return Ok(Some(WordFault::TooManyUris));
    }
    for uri in uris {
        if let Some(fault) = uri_fault(alloc, uri)? {
            return Ok(Some(fault));
        }
    }
    Ok(None)
}

fn is_metainfo_name(alloc: Global, word: &str) -> Result<bool, NoMemory> {
    match uri_fault(alloc, word)? {
        Some(WordFault::SecondMetainfo(_)) => Ok(true),
        _ => Ok(false),
    }
}

impl<'a> Reader<'a> {
    fn new(alloc: Global, mode: Mode) -> Reader<'a> {
        Reader {
            alloc,
            mode,
            seen: Vec::new(alloc),
            others: Vec::new(alloc),
            waiting: None,
            is_ended: false,
        }
    }

    fn has(&self, name: &str) -> bool {
        self.seen.iter().any(|it| *it == name)
    }

    fn see(&mut self, name: &'a str) -> Found<'a> {
        if self.has(name) {
            return Ok(Some(WordFault::Twice(name)));
        }
        self.seen.push(name)?;
        Ok(None)
    }

    fn value(&self, name: &'a str, option: Opt, value: &'a str) -> Found<'a> {
        match read(self.alloc, option.row().name, value) {
            Ok(_) => Ok(None),
            Err(OptErr::NoMemory) => Err(NoMemory),
            Err(_) => Ok(Some(WordFault::Value {
                name,
                value,
                option,
            })),
        }
    }

    // A word such as `--name=value`.
    fn valued(&mut self, word: &'a str, name: &'a str, value: &'a str) -> Found<'a> {
        let Some(option) = self.mode.option(name) else {
            return Ok(Some(WordFault::Unknown(word)));
        };
        if is_flag(option) {
            return Ok(Some(WordFault::TakesNoValue(name)));
        }
        match self.see(name)? {
            Some(fault) => Ok(Some(fault)),
            None => self.value(name, option, value),
        }
    }

    // A word such as `--name`.
    fn bare(&mut self, word: &'a str, name: &'a str) -> Found<'a> {
        let Some(option) = self.mode.option(name) else {
            return Ok(Some(WordFault::Unknown(word)));
        };
        if !is_flag(option) {
            self.waiting = Some((name, option));
        }
        self.see(name)
    }

    // The value behind a letter, in its word or the next one.
    fn letter_value(&mut self, option: Opt, rest: &'a str) -> Found<'a> {
        let name = option.row().name;
        if rest.is_empty() {
            self.waiting = Some((name, option));
            return Ok(None);
        }
        self.value(name, option, rest.strip_prefix('=').unwrap_or(rest))
    }

    // A word such as `-s5`.
    fn letters(&mut self, word: &'a str, letters: &'a str) -> Found<'a> {
        let mut rest = letters;
        for _ in 0..letters.len() {
            if rest.is_empty() {
                break;
            }
            let Some((option, after)) = lettered(rest) else {
                return Ok(Some(WordFault::Unknown(word)));
            };
            if let Some(fault) = self.see(option.row().name)? {
                return Ok(Some(fault));
            }
            if !is_flag(option) {
                return self.letter_value(option, after);
            }
            rest = after;
        }
        Ok(None)
    }

    // A word that begins with a dash.
    fn dashed(&mut self, word: &'a str) -> Found<'a> {
        if word == "--" {
            self.is_ended = true;
            return Ok(None);
        }
        match word.strip_prefix("--") {
            Some(rest) => match rest.split_once('=') {
                Some((name, value)) => self.valued(word, name, value),
                None => self.bare(word, rest),
            },
            None if self.mode == Mode::Downloads => {
                self.letters(word, word.strip_prefix('-').unwrap_or(word))
            }
            None => Ok(Some(WordFault::Unknown(word))),
        }
    }

    fn take(&mut self, word: &'a str) -> Found<'a> {
        if let Some((name, option)) = self.waiting {
            self.waiting = None;
            if is_dashed(word) {
                return Ok(Some(WordFault::LacksValue { name, option }));
            }
            return self.value(name, option, word);
        }
        if !self.is_ended && is_dashed(word) {
            return self.dashed(word);
        }
        self.others.push(word)?;
        Ok(None)
    }

    // What is wrong with the words that belong to no option.
    fn others_fault(&self) -> Found<'a> {
        let others = self.others.as_slice();
        match others.split_first() {
            Some((first, rest)) if is_metainfo_name(self.alloc, first)? => {
                uris_fault(self.alloc, rest)
            }
            Some(_) => uris_fault(self.alloc, others),
            None if self.has("enable-rpc") => Ok(None),
            None => Ok(Some(WordFault::NoWords)),
        }
    }

    fn end(&self) -> Found<'a> {
        if let Some((name, option)) = self.waiting {
            return Ok(Some(WordFault::LacksValue { name, option }));
        }
        match self.mode {
            Mode::Downloads => self.others_fault(),
            Mode::Load => Ok(Some(WordFault::Load)),
            Mode::Serve | Mode::Check => Ok(
                self.others.first().map(|word| WordFault::Unexpected(word)),
            ),
        }
    }
}

/// The first fault of a command line, where there is one that can be told.
pub fn fault_in<'a>(alloc: Global, words: &'a [String]) -> Found<'a> {
    let mode = mode_of(words);
    if mode == Mode::Load {
        return Ok(Some(WordFault::Load));
    }
    let mut reader = Reader::new(alloc, mode);
    for word in words {
        if let Some(fault) = reader.take(word.as_str())? {
            return Ok(Some(fault));
        }
    }
    reader.end()
}

/// The first word that belongs to no option.
pub fn first_other<'a>(alloc: Global, words: &'a [String]) -> Result<Option<&'a str>, NoMemory> {
    let mut reader = Reader::new(alloc, Mode::Downloads);
    for word in words {
        let _passed_over = reader.take(word.as_str())?;
    }
    Ok(reader.others.first().copied())
}
