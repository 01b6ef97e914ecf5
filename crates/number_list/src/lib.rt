//! Lists of distinct numbers, in which a number is put in and taken out in constant time.
#![tactic(auto)]

mod iter;
mod list;

pub use iter::Numbers;
pub use list::NumberList;
