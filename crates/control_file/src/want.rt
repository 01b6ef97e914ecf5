// What a store is to keep of a download, and what it found of it.
ghost use Rattle.std.specs.Prelude.{◌≡◌, ◌↔◌, ℕ, List, [], length, Some, None, IfSome, IsSome, IsTrue, All};
ghost use Rattle.control_file.specs.Wants.{AreDigestsOf, IsBehind, IsWant};

use bit_rows::BitRow;
use dl_kinds::{Digests, Plan, Text, Texts};
use span_map::{FileLen, Layout};

/// What a store is to keep: the files of `layout` in the folder `dir`, cut by `plan`. `base` names the control file. A
/// listed download has an info hash and a digest for each piece; an unlisted one has neither.
#[derive(Debug, Drop)]
pub struct Want {
    pub base: Text,
    pub dir: Text,
    pub layout: Layout,
    pub plan: Plan,
    pub digests: Digests,
    pub info_hash: Option<[u8; 20]>,
}

/// What a store found: the verified pieces, and the blocks that have come, numbered through the payload.
#[derive(Debug, Drop)]
pub struct Opened {
    pub verified: BitRow,
    pub blocks: BitRow,
}

// Whether a path begins with this part.
fn is_behind(base: &Text, path: &Texts) -> bool
    ensures { IsTrue result ↔ IsBehind base.now path.now }
{
    match path.get(0) {
        Some(part) => part.as_str() == base.as_str(),
        None => false,
    }
}

fn are_behind(base: &Text, files: &[FileLen]) -> bool
    ensures { IsTrue result ↔ All (λ file. IsBehind base.now file.path) files.now }
{
    for file in files {
        if !is_behind(base, &file.path) {
            return false;
        }
    }
    true
}

// Whether an info hash has its length, as its type says too, and there is a digest for each piece.
fn are_digests(hash: &[u8], digests: &Digests, pieces: u32) -> bool
    ensures { IsTrue result ↔ (length hash.now ≡ 20) × (length digests.now ≡ pieces) }
{
    hash.len() == 20 && digests.len() == pieces as usize
}

impl Want {
    // Whether there is a digest for each piece of a listed download, and none of another.
    fn has_digests(&self) -> bool
        ensures { IsTrue result
            ↔ AreDigestsOf self.now.plan.pieces self.now.info_hash self.now.digests }
    {
        match &self.info_hash {
            Some(hash) => are_digests(hash.as_slice(), &self.digests, self.plan.pieces),
            None => self.digests.is_empty(),
        }
    }

    /// Whether its parts agree, as the calls of a store want it: the plan is that of the files, each listed piece has a
    /// digest, and each path begins with `base`.
    pub fn is_consistent(&self) -> bool
        ensures { IsTrue result ↔ IsWant self.now }
    {
        if self.layout.total() != self.plan.total {
            return false;
        }
        if !self.has_digests() {
            return false;
        }
        are_behind(&self.base, self.layout.files())
    }
}
