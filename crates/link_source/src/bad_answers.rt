// Bad answers of mirrors in memory.
ghost use Rattle.std.specs.Prelude.{◌≡◌, ◌≤◌, ◌+◌, ◌==◌, [], position, IfOk, option_copied, option_and_then, vec_len, vec_capacity};
ghost use Rattle.link_source.specs.BadAnswers.{next_bad};

use std::alloc::{AllocError, Global};

/// How an answer is bad.
#[derive(Clone, Copy, Debug, PartialEq, Eq)]
pub enum BadKind {
    /// This status alone, without content.
    Status(u16),
    /// The body ends after so many bytes.
    Cut(u32),
    /// The byte at this place of the resource has all its bits turned, where the reply holds it.
    Flip(u64),
}

/// A bad answer of the mirror of this number.
#[derive(Clone, Copy, Debug, PartialEq, Eq)]
pub struct Bad {
    pub mirror: u16,
    pub kind: BadKind,
}

/// The bad answers that are left, and those that were given. There is room for all.
#[derive(Debug, Drop)]
pub struct BadAnswers {
    pub left: Vec<Bad>,
    pub used: Vec<Bad>,
    ghost room: { vec_len left + vec_len used ≤ vec_capacity used },
}

// The first one of a mirror.
fn find_next(left: &[Bad], mirror: usize) -> Option<&Bad>
    ensures { option_copied result ≡ next_bad left.now mirror }
{
    left.iter().find(|bad| bad.mirror as usize == mirror)
}

// Its place.
fn place_of(left: &[Bad], mirror: usize) -> Option<usize>
    ensures { result ≡ position (λ bad. bad.mirror == mirror) left.now }
{
    left.iter().position(|bad| bad.mirror as usize == mirror)
}

impl BadAnswers {
    ghost use Rattle.link_source.specs.Memory.{UsesNext};

    pub fn new(alloc: Global, left: Vec<Bad>) -> Result<Self, AllocError>
        ensures left { IfOk result (λ answers. answers.left ≡ left) }
        ensures used { IfOk result (λ answers. answers.used.items ≡ []) }
    {
        let used = Vec::with_capacity(alloc, left.len())?;
        Ok(BadAnswers { left, used })
    }

    // The next one of a mirror.
    fn next(&self, mirror: usize) -> Option<Bad>
        ensures { result ≡ next_bad self.now.left.items mirror }
    {
        find_next(&self.left, mirror).copied()
    }

    /// The next one of the mirror that replies, if one does.
    pub fn next_of(&self, mirror: Option<usize>) -> Option<Bad>
        ensures { result ≡ option_and_then (next_bad self.now.left.items) mirror }
    {
        self.next(mirror?)
    }

    /// Uses the next one of the mirror that replied, if one is left.
    pub fn use_next(&mut self, mirror: Option<usize>)
        ensures { UsesNext mirror self.old.left.items self.old.used.items
            self.new.left.items self.new.used.items }
    {
        let Some(mirror) = mirror else {
            return;
        };
        if let Some(place) = place_of(&self.left, mirror) {
            let bad = self.left.remove(place);
            self.used.push_reserved(bad);
        }
    }
}
