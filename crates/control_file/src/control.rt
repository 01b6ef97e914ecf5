// What a control file says.
ghost use Rattle.std.specs.Prelude.{◌≡◌, ◌==◌, ◌++◌, ◌∷◌, [], length, OnOk, OnErr, slice_get, option_copied};

use bit_rows::BitRow;
use dl_kinds::Blob;
use std::alloc::{AllocError, Global};
use std::marker::Model;

/// A piece of which blocks have come and which isn't verified: its number, its length in bytes, and its blocks that have
/// come.
#[derive(Debug, Drop)]
pub struct InFlight {
    pub index: u32,
    pub length: u32,
    pub blocks: BitRow,
}

/// A list of pieces in flight.
#[derive(Debug, Drop)]
pub struct InFlights {
    pieces: Vec<InFlight>,
}

impl Model for InFlights {
    ghost use Rattle.std.specs.Prelude.{List};
    ghost use Rattle.control_file.specs.declared.control.InFlight.{InFlight};

    ghost Value = { List InFlight };

    ghost view = { λ f. f.pieces.items };
}

impl InFlights {
    /// A list of none.
    pub fn new(alloc: Global) -> Self
        ensures { result ≡ [] }
    {
        InFlights {
            pieces: Vec::new(alloc),
        }
    }

    /// Adds a piece at the end, in memory of the allocator that the list was made with.
    pub fn push(&mut self, piece: InFlight) -> Result<(), AllocError>
        ensures ok { OnOk result (self.new ≡ self.old ++ piece ∷ []) }
        ensures err { OnErr result (self.new ≡ self.old) }
    {
        self.pieces.push(piece)?;
        Ok(())
    }

    pub fn len(&self) -> usize
        ensures { result ≡ length self.now }
    {
        self.pieces.len()
    }

    pub fn is_empty(&self) -> bool
        ensures { result ≡ (length self.now == 0) }
    {
        self.pieces.is_empty()
    }

    /// The piece at this place of the list, from 0.
    pub fn get(&self, place: usize) -> Option<&InFlight>
        ensures { option_copied result ≡ slice_get self.now place }
    {
        self.pieces.get(place)
    }

    /// The pieces, in order.
    pub fn items(&self) -> &[InFlight]
        ensures { result.now ≡ self.now }
    {
        &self.pieces
    }
}

/// What a control file says of a download: EXT, which is 1 where there is an info hash; the lengths of a piece and of the
/// payload, and how much was uploaded, in bytes; the verified pieces, and the pieces in flight.
#[derive(Debug, Drop)]
pub struct Control {
    pub ext: u32,
    pub info_hash: Blob,
    pub piece_len: u32,
    pub total: u64,
    pub uploaded: u64,
    pub pieces: BitRow,
    pub flight: InFlights,
}
