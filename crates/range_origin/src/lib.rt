//! An HTTP origin: the files of a folder, which several threads serve with ranges.
#![tactic(auto)]

mod ends;
mod intake;
mod keeping;
mod laws;
mod sending;
mod shelf;
mod talking;

pub use ends::{OriginEnd, VisitEnd};
pub use keeping::keep_origin;
pub use laws::limits_are_told;
pub use sending::{PIECE_BYTES, answer};
pub use shelf::{Ask, Folder, Shelf, Told};
