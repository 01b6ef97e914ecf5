//! The hash trees of BEP 52: the leaves of bytes, the roots over them, and where two rows of leaves differ.
#![tactic(auto)]

mod blocks;
mod hashes;
mod laws;
mod piece_lens;
mod places;
mod trees;

pub use blocks::{leaves, leaves_at_once};
pub use hashes::{Hashes, SHA256_LEN};
pub use laws::{layers_have_file_roots, limits_are_told, other_leaves_are_of_other_blocks};
pub use piece_lens::is_piece_len;
pub use places::{LeafPlaces, MAX_COMPARED, differing};
pub use trees::{MAX_WIDTH, file_root, layer_root, merkle, piece_root};
