// Who is told what a repair finds and does.

/// Is told what a repair finds and does, while it goes on, and has no say in it. Files have their names on the disk, pieces
/// their numbers in the file.
pub trait RepairWatch {
    /// The payload has so many bytes.
    fn begun(&mut self, total: u64);

    /// This piece of a file is wrong or missing.
    fn found_wrong(&mut self, name: &str, piece: u32);

    /// A block of the copy was written into the piece that begins at this byte of the file. Blocks of a piece are numbered
    /// from 0.
    fn wrote_block(&mut self, name: &str, start: u64, block: u16);

    /// A piece of so many bytes was checked, and repaired where it could be.
    fn checked(&mut self, bytes: u32);

    /// So it was with all pieces of a file.
    fn finished(&mut self, name: &str);
}

/// Nobody is told.
#[derive(Clone, Copy, Debug)]
pub struct Unwatched;

impl RepairWatch for Unwatched {
    fn begun(&mut self, _total: u64) {}

    fn found_wrong(&mut self, _name: &str, _piece: u32) {}

    fn wrote_block(&mut self, _name: &str, _start: u64, _block: u16) {}

    fn checked(&mut self, _bytes: u32) {}

    fn finished(&mut self, _name: &str) {}
}
