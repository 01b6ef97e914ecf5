// Names that are remembered as long as the program runs.
use std::alloc::Global;
use std::collections::BTreeSet;

// A set that may lack names has so many at most.
const MOST_NOTED: usize = 4_096;

/// A set of names. One for which memory was wanting is left out, and then `is_whole` says so.
#[derive(Drop)]
pub struct Lasting {
    alloc: Global,
    names: BTreeSet<String>,
    pub is_whole: bool,
}

impl Lasting {
    pub fn new(alloc: Global) -> Self {
        Lasting {
            alloc,
            names: BTreeSet::new(alloc),
            is_whole: true,
        }
    }

    pub fn has(&self, name: &str) -> bool {
        self.names.contains(name)
    }

    pub fn add(&mut self, name: &str) {
        let added = match String::from_str(self.alloc, name) {
            Ok(name) => self.names.insert(name).is_ok(),
            Err(_) => false,
        };
        self.is_whole = self.is_whole && added;
    }

    /// Adds a name to a set that may lack any of its names. Where it is full all others are forgotten.
    pub fn note(&mut self, name: &str) {
        if self.names.len() >= MOST_NOTED {
            self.names.clear();
        }
        self.add(name);
    }

    pub fn forget(&mut self, name: &str) {
        self.names.remove(name);
    }
}
