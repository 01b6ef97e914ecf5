// Free stretches of blocks.
ghost use Rattle.std.specs.Prelude.{◌≡◌, ◌↔◌, ℕ, ◌+◌, ◌<◌, ◌≤◌, ◌^◌, true, false, IsTrue, IfSome, MatchOption};
ghost use Rattle.dl_kinds.specs.Plan.{blocks_of, pieces_of};
ghost use Rattle.mirror_blame.specs.Marks.{IsEligible, IsUnmarked};
ghost use Rattle.segment_claim.specs.Free.{AreAlike, AreAlikeAt, is_loose};
ghost use Rattle.segment_claim.specs.Spans.{IsCover, IsNextStretch, NoneLoose};

use crate::scene::{Cover, Scene};
use dl_kinds::Run;

impl<'a> Scene<'a> {
    // Whether no mirror has used a try for the piece.
    fn is_unmarked(&self, piece: u32) -> bool
        ensures { IsTrue result → IsUnmarked self.now.max_tries self.now.marks piece }
    {
        match self.marks.next_marked(piece) {
            Some(marked) => marked != piece,
            None => true,
        }
    }

    // Whether the mirror has a try left for both pieces, or for neither.
    fn is_alike_for(&self, mirror: u16, piece: u32, other: u32) -> bool
        ensures { IsTrue result ↔ (IsEligible self.now.max_tries self.now.marks mirror piece
            ↔ IsEligible self.now.max_tries self.now.marks mirror other) }
    {
        self.marks.eligible(mirror, piece, piece) == self.marks.eligible(mirror, other, other)
    }

    // Whether the same mirrors have a try left for both pieces.
    fn are_alike(&self, piece: u32, other: u32) -> bool
        ensures { IsTrue result ↔ AreAlike self.now piece other }
    {
        if piece == other {
            return true;
        }
        if self.is_unmarked(piece) && self.is_unmarked(other) {
            return true;
        }
        for mirror in 0..self.hosts.len() as u16 {
            if !self.is_alike_for(mirror, piece, other) {
                return false;
            }
        }
        true
    }

    // The first loose block from `from` on, or the number of the blocks where there is none.
    fn next_loose(&self, from: u32, cover: &mut Cover) -> u32
        requires from { from ≤ blocks_of self.now.total self.now.piece_len }
        requires cover { IsCover self.now cover.old }
        ensures cover { IsCover self.now cover.new }
        ensures later { from ≤ result }
        ensures within { result ≤ blocks_of self.now.total self.now.piece_len }
        ensures none { NoneLoose self.now from result }
        ensures found { result < blocks_of self.now.total self.now.piece_len
            → is_loose self.now result ≡ true }
    {
        let blocks = self.plan.blocks();
        let mut at = from;
        while at < blocks {
            *cover = self.cover_from(at, *cover);
            let span = self.span_at(at, *cover);
            if span.loose {
                return at;
            }
            at = span.end;
        }
        at
    }

    // Where the loose blocks end that begin at `first` and whose pieces are alike.
    fn loose_end(&self, first: u32, cover: &mut Cover) -> u32
        requires first { first < blocks_of self.now.total self.now.piece_len }
        requires loose { is_loose self.now first ≡ true }
        requires cover { IsCover self.now cover.old }
        ensures cover { IsCover self.now cover.new }
        ensures some { first < result }
        ensures within { result ≤ blocks_of self.now.total self.now.piece_len }
        ensures loose { (block : ℕ) → first ≤ block → block < result
            → is_loose self.now block ≡ true }
        ensures alike { (block : ℕ) → first ≤ block → block < result
            → AreAlikeAt self.now first block }
        ensures behind { result < blocks_of self.now.total self.now.piece_len
            → is_loose self.now result ≡ true → ¬ AreAlikeAt self.now first result }
    {
        let blocks = self.plan.blocks();
        let piece = self.plan.piece_of(first);
        let mut at = first;
        while at < blocks {
            *cover = self.cover_from(at, *cover);
            let span = self.span_at(at, *cover);
            if !span.loose || !self.are_alike(piece, self.plan.piece_of(at)) {
                return at;
            }
            at = span.end;
        }
        at
    }

    /// The first stretch from `from` on.
    pub fn next_stretch(&self, from: u32, cover: &mut Cover) -> Option<Run>
        requires from { from ≤ blocks_of self.now.total self.now.piece_len }
        requires cover { IsCover self.now cover.old }
        ensures cover { IsCover self.now cover.new }
        ensures stretch { MatchOption result
            (NoneLoose self.now from (blocks_of self.now.total self.now.piece_len))
            (IsNextStretch self.now from) }
        ensures bounded { IfSome result (λ run. run.first + run.count < 2 ^ 32) }
    {
        let first = self.next_loose(from, cover);
        if first == self.plan.blocks() {
            return None;
        }
        let count = self.loose_end(first, cover) - first;
        Some(Run { first, count })
    }
}
