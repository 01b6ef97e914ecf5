//! Digests of pieces and of whole payloads (FIPS 180-4), and whether bytes have the digests that they are to have.
#![tactic(auto)]

mod all;
mod sealed;
mod whole;

pub use all::check_all;
pub use sealed::Sealed;
pub use whole::{WholeCheck, WholeHash};
