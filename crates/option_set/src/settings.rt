// Lists of settings.
ghost use Rattle.std.specs.Prelude.{◌≡◌, ◌==◌, ◌++◌, ◌∷◌, [], length, IfOk, OnOk, OnErr, slice_get, option_copied};

use crate::Setting;
use std::alloc::{AllocError, Global};
use std::marker::Model;

fn copies(alloc: Global, settings: &[Setting]) -> Result<Vec<Setting>, AllocError>
    ensures { IfOk result (λ copies. copies.items ≡ settings.now) }
{
    let mut copies = Vec::with_capacity(alloc, settings.len())?;
    for setting in settings {
        copies.push(setting.copy(alloc)?)?;
    }
    Ok(copies)
}

/// A list of settings.
#[derive(Debug, Drop)]
pub struct Settings {
    settings: Vec<Setting>,
}

impl Model for Settings {
    ghost use Rattle.std.specs.Prelude.{List};
    ghost use Rattle.option_set.specs.declared.setting.Assigned.{Assigned};

    ghost Value = { List Assigned };

    ghost view = { λ s. s.settings.items };
}

impl Settings {
    /// A list of none.
    pub fn new(alloc: Global) -> Self
        ensures { result ≡ [] }
    {
        Settings {
            settings: Vec::new(alloc),
        }
    }

    /// Adds a setting at the end, in memory of the allocator that the list was made with.
    pub fn push(&mut self, setting: Setting) -> Result<(), AllocError>
        ensures ok { OnOk result (self.new ≡ self.old ++ setting ∷ []) }
        ensures err { OnErr result (self.new ≡ self.old) }
    {
        self.settings.push(setting)?;
        Ok(())
    }

    pub fn len(&self) -> usize
        ensures { result ≡ length self.now }
    {
        self.settings.len()
    }

    pub fn is_empty(&self) -> bool
        ensures { result ≡ (length self.now == 0) }
    {
        self.settings.is_empty()
    }

    /// The setting at this place, from 0.
    pub fn get(&self, place: usize) -> Option<&Setting>
        ensures { option_copied result ≡ slice_get self.now place }
    {
        self.settings.get(place)
    }

    pub fn copy(&self, alloc: Global) -> Result<Self, AllocError>
        ensures { IfOk result (λ copy. copy ≡ self.now) }
    {
        Ok(Settings {
            settings: copies(alloc, &self.settings)?,
        })
    }
}
