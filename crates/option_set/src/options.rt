// The values of all options.
ghost use Rattle.std.specs.Prelude.{◌≡◌, ◌<◌, ◌++◌, IsTrue, IfOk, OnOk, IfSome, option_copied};
ghost use Rattle.option_set.specs.Table.{table_row, row_of_number, row_of_text};
ghost use Rattle.option_set.specs.Settings.{IsWithinLimits, MeetsRule};
ghost use Rattle.option_set.specs.Values.{AreValues, place_of_number, place_of_word, number_value, text_of_word, default_values, with_setting, number_text, value_text, is_shown, shown_pairs, shown_options};

use crate::setting::Assigned;
use crate::{Num, Opt, Scope, Setting, Spelling, Word};
use dl_kinds::Text;
use std::alloc::{AllocError, Global};
use std::marker::Model;

const NUMBERS: usize = 14;

const TEXTS: usize = 6;

/// The values of all options. Each option has one that it may have; an option of a text may have none.
#[derive(Debug, Drop)]
pub struct Options {
    numbers: [u64; NUMBERS],
    texts: [Option<Text>; TEXTS],
}

impl Model for Options {
    ghost use Rattle.option_set.specs.Values.{OptionValues, AreValues};

    ghost Value = { OptionValues };

    ghost view = { λ o. record { numbers = o.numbers; texts = o.texts } };

    ghost invariant = { λ o. AreValues record { numbers = o.numbers; texts = o.texts } };
}

fn number_place(num: Num) -> usize
    ensures value { result ≡ place_of_number num }
    ensures bound { result < 14 }
{
    num as usize
}

fn word_place(word: Word) -> usize
    ensures value { result ≡ place_of_word word }
    ensures bound { result < 6 }
{
    word as usize
}

fn default_number(num: Num) -> u64
    ensures { result ≡ (row_of_number num).default }
{
    num.row().default
}

fn default_text(alloc: Global, word: Word) -> Result<Option<Text>, AllocError>
    ensures { IfOk result (λ text. text ≡ (row_of_text word).default) }
{
    match word.row().default {
        Some(text) => Ok(Some(Text::of(alloc, text)?)),
        None => Ok(None),
    }
}

fn default_numbers() -> [u64; NUMBERS]
    ensures { result ≡ default_values.numbers }
{
    [
        default_number(Num::AutoSaveInterval),
        default_number(Num::CheckIntegrity),
        default_number(Num::EnableRpc),
        default_number(Num::MaxConcurrentDownloads),
        default_number(Num::MaxConnectionPerServer),
        default_number(Num::MaxDownloadLimit),
        default_number(Num::MaxOverallDownloadLimit),
        default_number(Num::MaxTries),
        default_number(Num::MinSplitSize),
        default_number(Num::Pause),
        default_number(Num::PieceLength),
        default_number(Num::RpcListenPort),
        default_number(Num::RpcMaxRequestSize),
        default_number(Num::Split),
    ]
}

fn default_texts(alloc: Global) -> Result<[Option<Text>; TEXTS], AllocError>
    ensures { IfOk result (λ texts. texts ≡ default_values.texts) }
{
    Ok([
        default_text(alloc, Word::Checksum)?,
        default_text(alloc, Word::Dir)?,
        default_text(alloc, Word::Gid)?,
        default_text(alloc, Word::Out)?,
        default_text(alloc, Word::RpcSecret)?,
        default_text(alloc, Word::SelectFile)?,
    ])
}

fn copied(alloc: Global, text: &Option<Text>) -> Result<Option<Text>, AllocError>
    ensures { IfOk result (λ copy. copy ≡ text.now) }
{
    match text {
        Some(text) => Ok(Some(text.copy(alloc)?)),
        None => Ok(None),
    }
}

fn copies(alloc: Global, texts: &[Option<Text>; TEXTS]) -> Result<[Option<Text>; TEXTS], AllocError>
    ensures { IfOk result (λ copies. copies ≡ texts.now) }
{
    Ok([
        copied(alloc, &texts[0])?,
        copied(alloc, &texts[1])?,
        copied(alloc, &texts[2])?,
        copied(alloc, &texts[3])?,
        copied(alloc, &texts[4])?,
        copied(alloc, &texts[5])?,
    ])
}

// A number as it is shown.
fn number_shown(alloc: Global, spelling: Spelling, value: u64) -> Result<Text, AllocError>
    ensures { IfOk result (λ text. text ≡ number_text spelling value) }
{
    if spelling == Spelling::Truth {
        return Text::of(alloc, if value == 0 { "false" } else { "true" });
    }
    let digits = format!(in alloc; "{value}")?;
    Text::of(alloc, digits.as_str())
}

// Whether an option is shown with those of a scope.
fn is_shown(scope: Scope, option: Opt) -> bool
    ensures { result ≡ is_shown scope option }
{
    match scope {
        Scope::Download => option.row().scope == Scope::Download,
        Scope::Global => option != Opt::Word(Word::RpcSecret),
    }
}

impl Options {
    /// Every option with its default.
    pub fn new(alloc: Global) -> Result<Self, AllocError>
        ensures { IfOk result (λ options. options ≡ default_values) }
    {
        let texts = default_texts(alloc)?;
        Ok(Options {
            numbers: default_numbers(),
            texts,
        })
    }

    pub fn copy(&self, alloc: Global) -> Result<Self, AllocError>
        ensures { IfOk result (λ copy. copy ≡ self.now) }
    {
        let texts = copies(alloc, &self.texts)?;
        Ok(Options {
            numbers: self.numbers,
            texts,
        })
    }

    /// Gives an option its value.
    pub fn apply(&mut self, setting: Setting)
        ensures { self.new ≡ with_setting self.old setting }
    {
        match setting.into_assigned() {
            Assigned::Number(num, value) => self.numbers[number_place(num)] = value,
            Assigned::Text(word, text) => self.texts[word_place(word)] = Some(text),
        }
    }

    /// Each number is within its option's limits, and each text meets its option's rule.
    pub fn values_are_within(&self)
        ensures { AreValues self.now }
    {
        let _ = &self.numbers;
    }

    /// The value of an option of a number; 0 and 1 are the truth values.
    pub fn number(&self, name: Num) -> u64
        ensures value { result ≡ number_value self.now name }
        ensures within { IsWithinLimits name result }
    {
        self.numbers[number_place(name)]
    }

    /// The value of an option of a text, if it has one.
    pub fn text(&self, name: Word) -> Option<&str>
        ensures value { option_copied result ≡ text_of_word self.now name }
        ensures rule { IfSome result (λ text. MeetsRule (row_of_text name).rule text.now) }
    {
        match &self.texts[word_place(name)] {
            Some(text) => Some(text.as_str()),
            None => None,
        }
    }

    // The value of an option as it is shown, if it has one.
    fn value_shown(&self, alloc: Global, option: Opt) -> Result<Option<Text>, AllocError>
        ensures { IfOk result (λ text. text ≡ value_text self.now option) }
    {
        match option {
            Opt::Num(num) => Ok(Some(number_shown(alloc, num.row().spelling, self.number(num))?)),
            Opt::Word(word) => copied(alloc, &self.texts[word_place(word)]),
        }
    }

    // Adds an option, if it is shown and has a value.
    fn push_shown(
        &self,
        alloc: Global,
        scope: Scope,
        option: Opt,
        pairs: &mut Vec<(Text, Text)>,
    ) -> Result<(), AllocError>
        ensures { OnOk result (pairs.new.items
            ≡ pairs.old.items ++ shown_pairs self.now scope option) }
    {
        if !is_shown(scope, option) {
            return Ok(());
        }
        if let Some(value) = self.value_shown(alloc, option)? {
            pairs.push((Text::of(alloc, option.row().name)?, value))?;
        }
        Ok(())
    }

    /// The options of downloads, or all but `rpc-secret`, each by its name and its value, where it has one. They stand in
    /// the ascending order of their names; sizes are in bytes.
    pub fn shown(&self, alloc: Global, scope: Scope) -> Result<Vec<(Text, Text)>, AllocError>
        ensures { IfOk result (λ pairs. pairs.items ≡ shown_options self.now scope) }
    {
        let mut pairs = Vec::new(alloc);
        for option in Opt::ALL {
            self.push_shown(alloc, scope, option, &mut pairs)?;
        }
        Ok(pairs)
    }
}
