// A download's table, marks and claims, and what limits them.
ghost use Rattle.std.specs.Prelude.{◌≡◌, ◌≤◌, ◌<◌, length, vec_len, IfOk};
ghost use Rattle.dl_kinds.specs.Plan.{blocks_of, pieces_of};

use bit_rows::BitRow;
use dl_kinds::{Code, Mark, Moment, Plan, Run};
use mirror_blame::Marks;
use piece_table::{NewRuns, Table};
use segment_claim::{Claim, Claims, Limits, Views, steals_are_of_claims};
use slow_steal::victim;
use std::alloc::{AllocError, Global};

/// What limits claims: the tries of a mirror for a piece, and the rest as [`Limits`].
#[derive(Clone, Copy)]
pub struct Limit {
    pub tries: u8,
    pub split: u16,
    pub per_host: u16,
    pub min_blocks: u32,
}

/// What may be done with a piece.
#[derive(Clone, Copy)]
pub enum Change {
    Clear,
    Right,
    Wrong,
    Sole,
    Leave,
}

/// The parts of a download that claims depend on. `next` is the number of the next claim.
#[derive(Drop)]
pub struct Rig {
    pub alloc: Global,
    pub plan: Plan,
    pub table: Table,
    pub marks: Marks,
    pub claims: Claims,
    pub hosts: Vec<u16>,
    pub wanted: BitRow,
    pub limit: Limit,
    pub next: u64,
    ghost total: { table.total ≡ plan.total },
    ghost piece_len: { table.piece_len ≡ plan.piece_len },
    ghost claims_total: { claims.total ≡ plan.total },
    ghost claims_piece_len: { claims.piece_len ≡ plan.piece_len },
    ghost mirrors: { vec_len hosts ≡ marks.mirrors },
    ghost few: { vec_len hosts ≤ 256 },
    ghost pieces: { length wanted ≡ pieces_of plan.total plan.piece_len },
    ghost some: { 1 ≤ limit.split },
    ghost most: { limit.split ≤ 64 },
    ghost numbered: { claims.next ≤ next },
}

// The table of a download of which nothing is landed.
fn bare(alloc: Global, plan: Plan) -> Result<Table, AllocError>
    ensures total { IfOk result (λ table. table.total ≡ plan.total) }
    ensures piece_len { IfOk result (λ table. table.piece_len ≡ plan.piece_len) }
{
    let verified = BitRow::new(alloc, plan.pieces)?;
    let blocks = BitRow::new(alloc, plan.blocks())?;
    Table::new(alloc, plan, verified, blocks)
}

// A row of this length, all of it true.
fn all(alloc: Global, len: u32) -> Result<BitRow, AllocError>
    ensures { IfOk result (λ row. length row ≡ len) }
{
    let mut row = BitRow::new(alloc, len)?;
    for place in 0..len {
        row.set(place);
    }
    Ok(row)
}

impl Rig {
    /// A download of which nothing is landed, and all is wanted, with a mirror on each of these hosts.
    pub fn new(alloc: Global, plan: Plan, hosts: Vec<u16>, limit: Limit) -> Result<Rig, AllocError>
        requires hosts { vec_len hosts ≤ 256 }
        requires some { 1 ≤ limit.split }
        requires most { limit.split ≤ 64 }
    {
        let wanted = all(alloc, plan.pieces)?;
        let table = bare(alloc, plan)?;
        Ok(Rig {
            alloc,
            plan,
            table,
            marks: Marks::new(alloc, hosts.len() as u16, limit.tries),
            claims: Claims::new(alloc, plan),
            hosts,
            wanted,
            limit,
            next: 0,
        })
    }

    /// The free claim, where there is one.
    pub fn free(&mut self, now: u64) -> Option<Claim> {
        if self.claims.reserve().is_err() || self.claims.standing() >= 64 || self.next == u64::MAX {
            return None;
        }
        let limits = Limits {
            split: self.limit.split,
            per_host: self.limit.per_host,
            min_blocks: self.limit.min_blocks,
            hosts: &self.hosts,
            wanted: &self.wanted,
        };
        let id = self.next;
        let claim = self
            .claims
            .grant_free(id, 0, &self.table, &self.marks, &limits, Moment(now));
        self.next = id + 1;
        claim
    }

    /// The blocks that are stolen of the slowest claim, where there is one that is able.
    pub fn steal(&mut self, now: u64) -> Option<Claim> {
        if self.claims.reserve().is_err() || self.claims.standing() >= 64 || self.next == u64::MAX {
            return None;
        }
        let limits = Limits {
            split: self.limit.split,
            per_host: self.limit.per_host,
            min_blocks: self.limit.min_blocks,
            hosts: &self.hosts,
            wanted: &self.wanted,
        };
        let mut views = Views::new();
        self.claims
            .views(&self.table, &self.marks, &limits, &mut views);
        steals_are_of_claims();
        let Some(steal) = victim(views.as_slice(), Moment(now)) else {
            return None;
        };
        let mirror = self
            .claims
            .mirror_for(steal.run, &self.table, &self.marks, &limits);
        let Some(mirror) = mirror else {
            return None;
        };
        let id = self.next;
        self.next = id + 1;
        Some(self.claims.grant_steal(id, 0, steal, mirror, Moment(now)))
    }

    /// A mirror gives some blocks, and the claims that are done don't stand any more. Told is which are new.
    pub fn land(&mut self, first: u32, count: u32, mirror: u16) -> NewRuns {
        if count > 64 || first as u64 + count as u64 > self.plan.blocks() as u64 {
            return NewRuns::new();
        }
        let new = self.table.land(Run { first, count }, mirror);
        self.claims.sweep(&self.table);
        new
    }

    // A full piece that isn't verified is found right or wrong.
    fn settle(&mut self, piece: u32, right: bool)
        requires { piece < pieces_of self.old.plan.total self.old.plan.piece_len }
    {
        if self.table.is_full(piece) && !self.table.is_verified(piece) {
            self.table.settle(piece, right);
        }
    }

    // A piece is cleared, unless it is verified.
    fn clear(&mut self, piece: u32)
        requires { piece < pieces_of self.old.plan.total self.old.plan.piece_len }
    {
        if !self.table.is_verified(piece) {
            self.table.clear(piece);
            self.claims.cleared(piece);
        }
    }

    /// Something is done with a piece.
    pub fn change(&mut self, piece: u32, change: Change) {
        if piece >= self.plan.pieces {
            return;
        }
        match change {
            Change::Clear => self.clear(piece),
            Change::Right => self.settle(piece, true),
            Change::Wrong => self.settle(piece, false),
            Change::Sole => self.table.make_sole(piece),
            Change::Leave => self.wanted.clear(piece),
        }
    }

    /// Whether a mirror has a try left for each of these pieces.
    pub fn is_eligible(&self, mirror: u16, first: u32, last: u32) -> bool {
        first <= last && self.marks.eligible(mirror, first, last)
    }

    /// A mirror gets a mark for a piece, where it has a try left.
    pub fn mark(&mut self, mirror: u16, piece: u32) {
        if self.marks.reserve(1).is_ok()
            && (mirror as usize) < self.hosts.len()
            && piece < 1_048_576
            && self.marks.eligible(mirror, piece, piece)
        {
            let mark = Mark {
                code: Code(32),
                count: 0,
            };
            self.marks.failed(mirror, piece, mark);
        }
    }

    /// The mirror that is chosen for these pieces, where so many claims stand on the host of each.
    pub fn choose(&self, first: u32, last: u32, standing: &[u16], limit: u16) -> Option<u16> {
        if first > last || standing.len() != self.hosts.len() {
            return None;
        }
        self.marks.choose(first, last, standing, limit)
    }
}
