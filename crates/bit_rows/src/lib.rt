//! Rows of truth values, kept in the bits of bytes.
#![tactic(auto)]

mod bits;
mod laws;
mod row;

pub use laws::rows_are_their_bytes;
pub use row::{BitErr, BitRow};
pub use std::alloc::AllocError as NoMemory;
