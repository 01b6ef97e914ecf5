// The full pieces that workers compare with their digests.
ghost use Rattle.std.specs.Prelude.{◌≡◌, ◌≤◌, ◌-◌, [], ◌∷◌, filter, not, OnOk};
ghost use Rattle.machine_core.specs.Offers.{is_handed, is_handed_out};
ghost use Rattle.machine_core.specs.Replays.{is_active_in};

use crate::Machine;
use dl_kinds::Gid;
use std::alloc::{AllocError, Global};
use std::marker::Model;

/// A full piece that a worker compares with its digest now.
#[derive(Clone, Copy, Debug, PartialEq, Eq)]
pub struct Handed {
    pub gid: Gid,
    pub piece: u32,
}

/// The pieces that workers compare now.
#[derive(Drop)]
pub struct HandedPieces {
    // The newest first.
    pieces: Vec<Handed>,
}

impl Model for HandedPieces {
    ghost use Rattle.std.specs.Prelude.{◌-◌, vec_capacity, vec_len};
    ghost use Rattle.machine_core.specs.Offers.{HandedList};

    ghost Value = { HandedList };

    ghost view = { λ h. record {
      pieces = h.pieces.items;
      room = vec_capacity h.pieces - vec_len h.pieces;
    } };
}

impl HandedPieces {
    /// A list of none.
    pub fn new(alloc: Global) -> Self
        ensures { result.pieces ≡ [] }
    {
        HandedPieces {
            pieces: Vec::new(alloc),
        }
    }

    /// Makes room for `more` more pieces. No other call takes memory.
    pub fn reserve(&mut self, more: usize) -> Result<(), AllocError>
        ensures pieces { self.new.pieces ≡ self.old.pieces }
        ensures room { self.old.room ≤ self.new.room }
        ensures ok { OnOk result (more ≤ self.new.room) }
    {
        self.pieces.reserve(more)
    }

    /// A worker is given a piece.
    pub fn hand_out(&mut self, gid: Gid, piece: u32)
        requires { 1 ≤ self.old.room }
        ensures { self.new ≡ record self.old {
          pieces = record { gid = gid; piece = piece } ∷ self.old.pieces;
          room = self.old.room - 1;
        } }
    {
        self.pieces.insert(0, Handed { gid, piece }).unwrap();
    }

    /// No worker compares the piece any more.
    pub fn hand_back(&mut self, gid: Gid, piece: u32)
        ensures pieces { self.new.pieces
            ≡ filter (λ handed. not (is_handed gid piece handed)) self.old.pieces }
        ensures room { self.old.room ≤ self.new.room }
    {
        self.pieces
            .retain(|handed| !(handed.gid.0 == gid.0 && handed.piece == piece));
    }

    /// Whether a worker compares the piece.
    pub fn is_out(&self, gid: Gid, piece: u32) -> bool
        ensures { result ≡ is_handed_out self.now.pieces gid piece }
    {
        self.pieces
            .iter()
            .any(|handed| handed.gid.0 == gid.0 && handed.piece == piece)
    }

    /// The pieces of downloads that aren't active any more go.
    pub fn keep_active(&mut self, machine: &Machine)
        ensures pieces { self.new.pieces
            ≡ filter (λ handed. is_active_in machine.now.start machine.now.past handed.gid)
            self.old.pieces }
        ensures room { self.old.room ≤ self.new.room }
    {
        self.pieces.retain(|handed| machine.is_active(handed.gid));
    }
}
