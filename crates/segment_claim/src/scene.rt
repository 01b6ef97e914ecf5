// What the choice of a claim looks at.
ghost use Rattle.std.specs.Prelude.{◌≡◌, ◌↔◌, ◌+◌, ◌<◌, ◌≤◌, Some, IsTrue, count_by, length, slice_get, take};
ghost use Rattle.dl_kinds.specs.declared.claims.TheConstants.{MAX_MIRRORS};
ghost use Rattle.dl_kinds.specs.Plan.{blocks_of, pieces_of};
ghost use Rattle.segment_claim.specs.Situation.{is_on, loads_of};
ghost use Rattle.segment_claim.specs.declared.limits.TheConstants.{MAX_SPLIT};

use bit_rows::BitRow;
use dl_kinds::{Claim, MAX_MIRRORS, Plan, plan_laws};
use mirror_blame::Marks;
use std::marker::Model;

/// A table, claims, marks and limits, and how many claims stand on each mirror's host.
#[derive(Drop)]
pub struct Scene<'a> {
    pub plan: Plan,
    pub landed: &'a BitRow,
    pub sole: &'a BitRow,
    pub wanted: &'a BitRow,
    pub standing: &'a [Claim],
    pub closed: &'a [u128],
    pub marks: &'a Marks,
    pub hosts: &'a [u16],
    pub per_host: u16,
    pub split: u16,
    pub min_blocks: u32,
    pub loads: [u16; MAX_MIRRORS as usize],
}

impl<'a> Model for Scene<'a> {
    ghost use Rattle.segment_claim.specs.Situation.{Situation};
    ghost use Rattle.segment_claim.specs.Seen.{IsScene};

    ghost Value = { Situation };

    ghost view = { λ s. record {
      total = s.plan.total;
      piece_len = s.plan.piece_len;
      landed = s.landed.now;
      sole = s.sole.now;
      wanted = s.wanted.now;
      standing = s.standing.now;
      closed = s.closed.now;
      max_tries = s.marks.now.max_tries;
      marks = s.marks.now.marks;
      hosts = s.hosts.now;
      per_host = s.per_host;
      split = s.split;
      min_blocks = s.min_blocks;
    } };

    ghost invariant = { λ s. IsScene (record {
      total = s.plan.total;
      piece_len = s.plan.piece_len;
      landed = s.landed.now;
      sole = s.sole.now;
      wanted = s.wanted.now;
      standing = s.standing.now;
      closed = s.closed.now;
      max_tries = s.marks.now.max_tries;
      marks = s.marks.now.marks;
      hosts = s.hosts.now;
      per_host = s.per_host;
      split = s.split;
      min_blocks = s.min_blocks;
    }) s.marks.now.mirrors s.loads };
}

/// The newest claim over the blocks from `from` to before `until`.
#[derive(Clone, Copy, Debug, PartialEq, Eq)]
pub struct Cover {
    pub from: u32,
    pub until: u32,
    pub newest: Option<u64>,
}

/// Blocks up to before `end`, that are loose or not.
#[derive(Clone, Copy, Debug, PartialEq, Eq)]
pub struct Span {
    pub end: u32,
    pub loose: bool,
}

// Whether the claim's mirror is on a host.
fn is_on(hosts: &[u16], claim: &Claim, host: u16) -> bool
    ensures { result ≡ is_on hosts.now host claim.now }
{
    match hosts.get(claim.mirror as usize) {
        Some(number) => *number == host,
        None => false,
    }
}

// How many claims stand on a host.
fn count_on(hosts: &[u16], host: u16, standing: &[Claim]) -> u16
    requires { length standing.now ≤ MAX_SPLIT }
    ensures { result ≡ count_by (is_on hosts.now host) standing.now }
{
    standing
        .iter()
        .filter(|claim| is_on(hosts, claim, host))
        .count() as u16
}

/// How many claims stand on each mirror's host.
pub fn host_loads(hosts: &[u16], standing: &[Claim]) -> [u16; MAX_MIRRORS as usize]
    requires claims { length standing.now ≤ MAX_SPLIT }
    requires mirrors { length hosts.now ≤ MAX_MIRRORS }
    ensures room { length result ≡ 256 }
    ensures loads { take (length hosts.now) result ≡ loads_of hosts.now standing.now }
{
    let mut loads = [0; MAX_MIRRORS as usize];
    for mirror in 0..hosts.len() {
        loads[mirror] = count_on(hosts, hosts[mirror], standing);
    }
    loads
}

impl<'a> Scene<'a> {
    ghost use Rattle.segment_claim.specs.Spans.{IsCover, IsCoverAt, IsSpanOfPiece, is_brought_by, may_be_loose};

    // The cover of a block and those behind it.
    fn cover_at(&self, at: u32) -> Cover
        requires { at < blocks_of self.now.total self.now.piece_len }
        ensures { IsCoverAt self.now at result }
    {
        let mut until = self.plan.blocks();
        let mut newest: Option<u64> = None;
        for claim in self.standing {
            let end = claim.run.first + claim.run.count;
            if at < claim.run.first {
                until = until.min(claim.run.first);
            } else if at < end {
                until = until.min(end);
                newest = newest.or(Some(claim.id));
            }
        }
        Cover {
            from: at,
            until,
            newest,
        }
    }

    // Whether the newest claim over a block of the piece is to bring it, unless it is landed.
    fn is_brought(&self, piece: u32, newest: Option<u64>) -> bool
        requires { piece < pieces_of self.now.total self.now.piece_len }
        ensures { result ≡ is_brought_by self.now piece newest }
    {
        match newest {
            Some(id) => self.closed[piece as usize] <= id as u128,
            None => false,
        }
    }

    // Whether a block of the piece is loose unless it is landed.
    fn may_be_loose(&self, piece: u32, newest: Option<u64>) -> bool
        requires { piece < pieces_of self.now.total self.now.piece_len }
        ensures { result ≡ may_be_loose self.now piece newest }
    {
        self.wanted.get(piece) && !self.sole.get(piece) && !self.is_brought(piece, newest)
    }

    /// The blocks from `at` on that are of its piece and all loose, or all not.
    pub fn span_at(&self, at: u32, cover: Cover) -> Span
        requires within { at < blocks_of self.now.total self.now.piece_len }
        requires cover { IsCoverAt self.now at cover }
        ensures { IsSpanOfPiece self.now at result }
    {
        plan_laws();
        let piece = self.plan.piece_of(at);
        let run = self.plan.piece_run(piece);
        let end = (run.first + run.count).min(cover.until);
        if !self.may_be_loose(piece, cover.newest) {
            return Span { end, loose: false };
        }
        let landed = self.landed.get(at);
        Span {
            end: self.landed.next_within(at, end, !landed),
            loose: !landed,
        }
    }

    /// The cover of a block, which is the one at hand where that holds the block.
    pub fn cover_from(&self, at: u32, cover: Cover) -> Cover
        requires within { at < blocks_of self.now.total self.now.piece_len }
        requires cover { IsCover self.now cover }
        ensures { IsCoverAt self.now at result }
    {
        if cover.from <= at && at < cover.until {
            cover
        } else {
            self.cover_at(at)
        }
    }
}
