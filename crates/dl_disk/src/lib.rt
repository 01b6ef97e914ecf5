//! A disk as the parts above it see it: files by their names, what a read gives, what a crash at any moment may leave,
//! and what was so at earlier moments. And a disk in memory.
#![tactic(auto)]

mod contents;
mod crash;
mod disk;
mod edits;
mod memory;
mod record;

pub use disk::Disk;
pub use memory::MemDisk;
