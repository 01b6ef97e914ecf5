// What limits the claims of a download.
use bit_rows::BitRow;
use std::marker::Model;

/// The most claims of a download that stand together.
pub const MAX_SPLIT: u16 = 64;

/// What limits the claims of a download.
#[derive(Debug, Drop)]
pub struct Limits<'a> {
    /// How many claims the payload is split into.
    pub split: u16,
    /// How many claims may stand on a host.
    pub per_host: u16,
    /// The least blocks of a claim, where a stretch has so many.
    pub min_blocks: u32,
    /// The number of each mirror's host.
    pub hosts: &'a [u16],
    /// The pieces that are to come.
    pub wanted: &'a BitRow,
}

impl<'a> Model for Limits<'a> {
    ghost use Rattle.segment_claim.specs.Rules.{Rules};

    ghost Value = { Rules };

    ghost view = { λ l. record {
      split = l.split;
      per_host = l.per_host;
      min_blocks = l.min_blocks;
      hosts = l.hosts.now;
      wanted = l.wanted.now;
    } };
}
