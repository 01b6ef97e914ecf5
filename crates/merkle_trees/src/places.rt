// Where two rows of leaves differ.
ghost use Rattle.std.specs.Prelude.{◌≡◌, ◌==◌, ◌≤◌, length, IfOk, slice_get, option_copied};
ghost use Rattle.merkle_trees.specs.Places.{differing_places};
ghost use Rattle.merkle_trees.specs.declared.places.TheConstants.{MAX_COMPARED};

use crate::{Hashes, SHA256_LEN};
use std::alloc::{AllocError, Global};
use std::marker::Model;

/// The most leaves of a row that is compared: places are told in 16 bits.
pub const MAX_COMPARED: usize = 65_536;

/// Places of leaves in a row, from 0.
#[derive(Debug, Drop)]
pub struct LeafPlaces {
    places: Vec<u16>,
}

impl Model for LeafPlaces {
    ghost use Rattle.std.specs.Prelude.{List, ℕ};

    ghost Value = { List ℕ };

    ghost view = { λ p. p.places.items };
}

impl LeafPlaces {
    pub fn len(&self) -> usize
        ensures { result ≡ length self.now }
    {
        self.places.len()
    }

    pub fn is_empty(&self) -> bool
        ensures { result ≡ (length self.now == 0) }
    {
        self.places.is_empty()
    }

    pub fn as_slice(&self) -> &[u16]
        ensures { result.now ≡ self.now }
    {
        &self.places
    }
}

fn differing_in(
    alloc: Global,
    wrong: &[[u8; SHA256_LEN]],
    right: &[[u8; SHA256_LEN]],
) -> Result<Vec<u16>, AllocError>
    requires same { length wrong.now ≡ length right.now }
    requires few { length wrong.now ≤ MAX_COMPARED }
    ensures { IfOk result (λ places. places.items ≡ differing_places wrong.now right.now) }
{
    let mut places = Vec::new(alloc);
    for place in 0..wrong.len() {
        if wrong[place] != right[place] {
            places.push(place as u16)?;
        }
    }
    Ok(places)
}

/// The places of the leaves that differ between two rows, in ascending order.
pub fn differing(alloc: Global, wrong: &Hashes, right: &Hashes) -> Result<LeafPlaces, AllocError>
    requires same { length wrong.now ≡ length right.now }
    requires few { length wrong.now ≤ MAX_COMPARED }
    ensures { IfOk result (λ places. places ≡ differing_places wrong.now right.now) }
{
    Ok(LeafPlaces {
        places: differing_in(alloc, wrong.as_slice(), right.as_slice())?,
    })
}
