// The marks of mirrors.
ghost use Rattle.std.specs.Prelude.{◌≡◌, ◌↔◌, ℕ, ◌+◌, ◌-◌, ◌<◌, ◌≤◌, [], ◌∷◌, length, slice_index, Some, IsTrue, IsNone, IfNone, IfSome, MatchOption, OnOk};
ghost use Rattle.mirror_blame.specs.Marks.{tries_of, IsEligible, IsEligibleForAll, IsDead, IsNextMarked, IsUnmarked, last_mark_of, total_marks};
ghost use Rattle.mirror_blame.specs.Choice.{GoesBefore, IsCandidate, IsChoice};

use crate::Blame;
use crate::places::{Place, count_of, has_used, put, run_of, start_of};
use dl_kinds::Mark;
use std::alloc::{AllocError, Global};
use std::marker::Model;

/// The marks of mirrors for pieces. A mirror that has as many marks for a piece as it has tries isn't asked for it again.
#[derive(Debug, Drop)]
pub struct Marks {
    mirrors: u16,
    max_tries: u8,
    // The marks in the order in which they came.
    log: Vec<Blame>,
    // Their places in the log by piece, and those of a piece with the newest first.
    order: Vec<Place>,
    // How many marks each mirror has. Empty until room is made.
    totals: Vec<u32>,
}

impl Model for Marks {
    ghost use Rattle.std.specs.Prelude.{◌-◌, length, reverse, vec_len, vec_capacity};
    ghost use Rattle.mirror_blame.specs.Book.{MarkBook};
    ghost use Rattle.mirror_blame.specs.Kept.{KeepsMarks, spare_of};

    ghost Value = { MarkBook };

    ghost view = { λ m. record {
      mirrors = m.mirrors;
      max_tries = m.max_tries;
      marks = reverse m.log.items;
      spare = spare_of m.mirrors (vec_len m.totals) (vec_capacity m.log - vec_len m.log) (vec_capacity m.order - vec_len m.order);
    } };

    ghost invariant = { λ m. KeepsMarks m.mirrors m.max_tries m.log.items m.order.items m.totals.items };
}

impl Marks {
    /// No marks of so many mirrors, each with so many tries for a piece.
    pub fn new(alloc: Global, mirrors: u16, max_tries: u8) -> Self
        ensures mirrors { result.mirrors ≡ mirrors }
        ensures max_tries { result.max_tries ≡ max_tries }
        ensures marks { result.marks ≡ [] }
    {
        Marks {
            mirrors,
            max_tries,
            log: Vec::new(alloc),
            order: Vec::new(alloc),
            totals: Vec::new(alloc),
        }
    }

    /// Makes room for `n` more marks. The other calls take no memory.
    pub fn reserve(&mut self, n: u32) -> Result<(), AllocError>
        ensures ok { OnOk result (n ≤ self.new.spare) }
        ensures kept { self.old.spare ≤ self.new.spare }
        ensures same { self.new ≡ record self.old { spare = self.new.spare } }
    {
        self.totals.resize(self.mirrors as usize, 0)?;
        self.log.reserve(n as usize)?;
        self.order.reserve(n as usize)?;
        Ok(())
    }

    /// Marks a mirror that failed at a piece. It has to have a try left for it.
    pub fn failed(&mut self, mirror: u16, piece: u32, mark: Mark)
        requires mirror { mirror < self.old.mirrors }
        requires piece { piece < 1048576 }
        requires eligible { IsEligible self.old.max_tries self.old.marks mirror piece }
        requires room { 1 ≤ self.old.spare }
        ensures { self.new ≡ record self.old {
          marks = record { mirror = mirror; piece = piece; mark = mark } ∷ self.old.marks;
          spare = self.old.spare - 1;
        } }
    {
        let at = self.log.len();
        put(&mut self.order, Place { piece, mirror, at });
        self.log.push_reserved(Blame {
            mirror,
            piece,
            mark,
        });
        self.totals[mirror as usize] += 1;
    }

    /// How many of its tries for a piece a mirror has used.
    pub fn tries(&self, mirror: u16, piece: u32) -> u8
        ensures { result ≡ tries_of self.now.max_tries self.now.marks mirror piece }
    {
        count_of(run_of(&self.order, piece, piece), mirror) as u8
    }

    /// Whether a mirror has a try left for each of the pieces from `first` to `last`.
    pub fn eligible(&self, mirror: u16, first: u32, last: u32) -> bool
        requires { first ≤ last }
        ensures { IsTrue result
            ↔ IsEligibleForAll self.now.max_tries self.now.marks mirror first last }
    {
        self.max_tries > 0 && !has_used(run_of(&self.order, first, last), mirror, self.max_tries)
    }

    /// Whether no mirror has a try left for a piece.
    pub fn dead(&self, piece: u32) -> bool
        ensures { IsTrue result ↔ IsDead self.now.mirrors self.now.max_tries self.now.marks piece }
    {
        run_of(&self.order, piece, piece).len() == self.mirrors as usize * self.max_tries as usize
    }

    /// The last mark of a piece.
    pub fn last_mark(&self, piece: u32) -> Option<Mark>
        ensures { result ≡ last_mark_of self.now.max_tries self.now.marks piece }
    {
        let newest = run_of(&self.order, piece, piece).first()?;
        Some(self.log[newest.at].mark)
    }

    /// The first piece from `from` on for which a mirror has used a try.
    pub fn next_marked(&self, from: u32) -> Option<u32>
        ensures found { IfSome result (λ piece.
            IsNextMarked self.now.max_tries self.now.marks from piece) }
        ensures none { IfNone result ((piece : ℕ) → from ≤ piece
            → IsUnmarked self.now.max_tries self.now.marks piece) }
    {
        let at = start_of(&self.order, from as u64);
        if at == self.order.len() {
            return None;
        }
        Some(self.order[at].piece)
    }

    /// How many marks a mirror has in all.
    pub fn total(&self, mirror: u16) -> u32
        ensures { result ≡ total_marks self.now.max_tries self.now.marks mirror }
    {
        self.totals.get(mirror as usize).copied().unwrap_or(0)
    }

    // Whether a mirror goes before the best so far, which has a lower number.
    fn is_better(&self, mirror: u16, best: Option<u16>, standing: &[u16]) -> bool
        requires mirror { mirror < length standing.now }
        requires best { IfSome best (λ other. other < mirror) }
        ensures { IsTrue result ↔ MatchOption best (Unit {0}) (λ other.
            GoesBefore (total_marks self.now.max_tries self.now.marks) (slice_index standing.now)
            mirror other) }
    {
        let Some(other) = best else {
            return true;
        };
        let total = self.total(mirror);
        let least = self.total(other);
        total < least || total == least && standing[mirror as usize] < standing[other as usize]
    }

    /// The mirror that is eligible for all pieces from `first` to `last`, with fewer claims than `limit` on its host, and
    /// of these has the fewest marks in all, then the fewest claims on its host, then the lowest number. `standing` has
    /// for each mirror the claims that stand on its host.
    pub fn choose(&self, first: u32, last: u32, standing: &[u16], limit: u16) -> Option<u16>
        requires order { first ≤ last }
        requires each { length standing.now ≡ self.now.mirrors }
        ensures choice { (mirror : ℕ) → (result ≡ Some mirror)
            ↔ IsChoice self.now.mirrors self.now.max_tries self.now.marks first last standing.now
            limit mirror }
        ensures none { IsNone result ↔ ((mirror : ℕ)
            → IsCandidate self.now.mirrors self.now.max_tries self.now.marks first last
            standing.now limit mirror → ⊥) }
    {
        let mut best: Option<u16> = None;
        for mirror in 0..self.mirrors {
            if standing[mirror as usize] < limit
                && self.is_better(mirror, best, standing)
                && self.eligible(mirror, first, last)
            {
                best = Some(mirror);
            }
        }
        best
    }
}
