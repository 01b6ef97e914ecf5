//! Metainfo files of version 2 torrents and of hybrid ones, as version 2 (BEP 52).
#![tactic(auto)]

mod entries;
mod fields;
mod files;
mod laws;
mod layers;
mod limits;
mod meta;
mod reading;
mod refusals;
mod rules;
mod tree;

pub use files::{FileV2, FilesV2};
pub use laws::{lengths_are_those_of_pieces, metainfo_v2_is_sound};
pub use meta::MetaV2;
pub use refusals::{KeyV2, V2Err};
