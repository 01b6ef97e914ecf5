// Settings, and how they are read.
ghost use Rattle.std.specs.Prelude.{◌≡◌, ◌≢◌, ◌↔◌, ◌<◌, ◌≤◌, ◌^◌, ℕ, IsTrue, IsOk, IfOk, IsErrOf, IfErr, IfSome, MatchResult, length, Contains};
ghost use Rattle.option_set.specs.Table.{table_row, row_of_number, row_of_text};
ghost use Rattle.option_set.specs.Settings.{IsWithinLimits, MeetsRule, SpellsValue, IsOutside};
ghost use Rattle.option_set.specs.Assignments.{IsNoSetting, IsSettingOf, ReadsNumber, option_of};
ghost use Rattle.option_set.specs.declared.setting.OptErr.TheVariants.{Unknown, BadValue, OutOfRange, NoMemory};

use crate::files::is_file_list;
use crate::numbers::number;
use crate::{Num, Opt, Rule, Word};
use dl_kinds::{Checksum, Gid, Text};
use span_map::is_valid_part;
use std::alloc::{AllocError, AllocFailed, Global};
use std::marker::Model;
use thiserror::Error;

/// Why a value of an option isn't read.
#[derive(Clone, Copy, Debug, PartialEq, Eq, Error)]
pub enum OptErr {
    #[error("no option has this name")]
    Unknown,
    #[error("the value isn't spelled as this option's values are")]
    BadValue,
    #[error("the value isn't within {least} to {most}")]
    OutOfRange { least: u64, most: u64 },
    #[error("out of memory")]
    NoMemory,
}

impl From<AllocError> for OptErr {
    ghost from_gives = { λ _ e. e ≡ NoMemory };

    fn from(_: AllocError) -> Self {
        OptErr::NoMemory
    }
}

// An option with its value.
#[derive(Debug, Drop)]
pub(crate) enum Assigned {
    Number(Num, u64),
    Text(Word, Text),
}

/// An option with a value that it may have. Only `read` and `copy` make one.
#[derive(Debug, Drop)]
pub struct Setting {
    assigned: Assigned,
}

impl Model for Setting {
    ghost use Rattle.option_set.specs.declared.setting.Assigned.{Assigned};

    ghost Value = { Assigned };

    ghost use Rattle.option_set.specs.Assignments.{IsAssignable};

    ghost view = { λ s. s.assigned };

    ghost invariant = { λ s. IsAssignable s.assigned };
}

impl Setting {
    /// The option that is set.
    pub fn option(&self) -> Opt
        ensures { result ≡ option_of self.now }
    {
        match &self.assigned {
            Assigned::Number(num, _) => Opt::Num(*num),
            Assigned::Text(word, _) => Opt::Word(*word),
        }
    }

    pub fn copy(&self, alloc: Global) -> Result<Self, AllocError>
        ensures { IfOk result (λ copy. copy ≡ self.now) }
    {
        let assigned = match &self.assigned {
            Assigned::Number(num, value) => Assigned::Number(*num, *value),
            Assigned::Text(word, text) => Assigned::Text(*word, text.copy(alloc)?),
        };
        Ok(Setting { assigned })
    }

    pub(crate) fn into_assigned(self) -> Assigned
        ensures { result ≡ self }
    {
        let Setting { assigned } = self;
        assigned
    }
}

fn read_number(num: Num, value: &str) -> Result<u64, OptErr>
    ensures { ReadsNumber num value.now result }
{
    let row = num.row();
    let Some(value) = number(row.spelling, value) else {
        return Err(OptErr::BadValue);
    };
    if value < row.least || row.most < value {
        return Err(OptErr::OutOfRange {
            least: row.least,
            most: row.most,
        });
    }
    Ok(value)
}

// Whether a rule lets a text stand.
fn meets(rule: Rule, text: &str) -> bool
    ensures { IsTrue result ↔ MeetsRule rule text.now }
{
    match rule {
        Rule::Filled => !text.is_empty(),
        Rule::Folder => !text.is_empty() && !text.as_bytes().contains(&0),
        Rule::FilePart => is_valid_part(text.as_bytes()),
        Rule::Checksum => Checksum::read(text).is_some(),
        Rule::Gid => Gid::read(text).is_some(),
        Rule::FileList => is_file_list(text),
    }
}

/// Reads a value of the option of this long name. Unknown comes where no option has the name, BadValue where the value
/// isn't spelled as the option's values are, and OutOfRange where it spells a number that isn't within the option's limits.
pub fn read(alloc: Global, name: &str, value: &str) -> Result<Setting, OptErr>
    ensures ok { IfOk result (λ setting. IsSettingOf name.now value.now setting) }
    ensures unknown { IsErrOf result Unknown → (option : Opt) → (table_row option).name ≢ name.now }
    ensures bad_value { IsErrOf result BadValue
        → (option : Opt) × ((table_row option).name ≡ name.now) × ¬ SpellsValue option value.now }
    ensures out_of_range { (least : ℕ) → (most : ℕ) → IsErrOf result (OutOfRange least most)
        → IsOutside name.now value.now least most }
    ensures refused { IfErr result (λ fault. fault ≢ NoMemory
        → IsNoSetting name.now value.now) }
{
    let option = Opt::named(name).ok_or(OptErr::Unknown)?;
    let assigned = match option {
        Opt::Num(num) => Assigned::Number(num, read_number(num, value)?),
        Opt::Word(word) => {
            if !meets(word.row().rule, value) {
                return Err(OptErr::BadValue);
            }
            Assigned::Text(word, Text::of(alloc, value)?)
        }
    };
    Ok(Setting { assigned })
}
