// What lines of cases go on with.
use dl_kinds::{Code, Mark, Text, Texts};
use fault_notes::{Notes, Why};
use run_words::{LastLoss, Losses};
use std::alloc::Global;
use test_lines::{set, u16_at, u32_at, u64_at, word};

/// What the edges noted, what mirrors were lost by, and the URIs of the one download.
#[derive(Drop)]
pub struct Rig {
    pub alloc: Global,
    pub disk: Notes,
    pub link: Notes,
    pub losses: Losses,
    pub uris: Texts,
}

/// Each cause by a word.
pub const CAUSES: [(&str, Why); 16] = [
    ("missing", Why::Missing),
    ("right", Why::NoRight),
    ("space", Why::NoSpace),
    ("reads", Why::ReadOnly),
    ("long", Why::TooLong),
    ("folder", Why::InTheWay),
    ("name", Why::BadName),
    ("open", Why::TooManyOpen),
    ("untrusted", Why::Untrusted),
    ("host", Why::UnknownHost),
    ("refused", Why::Refused),
    ("silent", Why::TimedOut),
    ("way", Why::Unreachable),
    ("broken", Why::Broken),
    ("other", Why::Other(5)),
    ("none", Why::Other(0)),
];

fn cause(name: &str) -> Why {
    test_lines::keyword(&CAUSES, name, Why::Other(0))
}

impl Rig {
    /// Before the first line.
    pub fn new(alloc: Global) -> Rig {
        Rig {
            alloc,
            disk: Notes::new(alloc),
            link: Notes::new(alloc),
            losses: Losses {
                items: Vec::new(alloc),
            },
            uris: Texts::new(alloc),
        }
    }

    /// Forgets what was noted, lost and named.
    pub fn forget(&mut self) {
        let alloc = self.alloc;
        set(&mut self.disk, Notes::new(alloc));
        set(&mut self.link, Notes::new(alloc));
        self.losses.items.clear();
        set(&mut self.uris, Texts::new(alloc));
    }

    /// A line such as `disk 3 a/b space`.
    pub fn note(&mut self, line: &str) {
        let (count, name, why) = (u64_at(line, 1), word(line, 2), cause(word(line, 3)));
        if word(line, 0) == "disk" {
            self.disk.add(self.alloc, count, name, why);
        } else {
            self.link.add(self.alloc, count, name, why);
        }
    }

    /// A line such as `lost 0 6 3`: the mirror, the code and the count of faults of the link.
    pub fn lose(&mut self, line: &str) {
        let loss = LastLoss {
            mirror: u16_at(line, 1),
            mark: mark_at(line, 2),
            worker: u32_at(line, 4),
        };
        let _left_out = self.losses.items.push(loss).is_err();
    }

    /// A line such as `uri http://m.test/a`.
    pub fn name(&mut self, line: &str) {
        if let Ok(text) = Text::of(self.alloc, word(line, 1)) {
            let _left_out = self.uris.push(text).is_err();
        }
    }
}

/// The mark of a code and a count at a place of a line.
pub fn mark_at(line: &str, place: usize) -> Mark {
    let code = u16_at(line, place).min(255) as u8;
    Mark {
        code: Code(code),
        count: u64_at(line, place.saturating_add(1)),
    }
}
