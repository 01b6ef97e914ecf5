// The failures of a thing of the outside.
use crate::Why;
use std::alloc::{AllocError, Global};

/// How many failures are kept, the newest ones.
pub const MOST_NOTES: usize = 256;

/// A failure.
#[derive(Debug, Drop)]
pub struct Note {
    /// The thing's count of faults behind it.
    pub count: u64,
    /// The file, or the host of a mirror.
    pub name: String,
    pub why: Why,
}

/// The newest failures of a thing of the outside, in their order.
#[derive(Debug, Drop)]
pub struct Notes {
    notes: Vec<Note>,
}

impl Notes {
    /// None yet.
    pub fn new(alloc: Global) -> Notes {
        Notes {
            notes: Vec::new(alloc),
        }
    }

    /// Adds a failure at a file or a host. Without memory it is left out.
    pub fn add(&mut self, alloc: Global, count: u64, name: &str, why: Why) {
        if self.notes.len() >= MOST_NOTES {
            self.notes.remove(0);
        }
        let _left_out = self.push(alloc, count, name, why).is_err();
    }

    fn push(&mut self, alloc: Global, count: u64, name: &str, why: Why) -> Result<(), AllocError> {
        let name = String::from_str(alloc, name)?;
        self.notes.push(Note { count, name, why })?;
        Ok(())
    }

    /// The failure behind which the count of faults was this.
    pub fn find(&self, count: u64) -> Option<&Note> {
        self.notes.iter().rev().find(|note| note.count == count)
    }

    /// The newest one.
    pub fn last(&self) -> Option<&Note> {
        self.notes.last()
    }
}

/// A thing of the outside that notes its failures.
pub trait Noted {
    /// Its newest failures.
    fn notes(&self) -> &Notes;
}
