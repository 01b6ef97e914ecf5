// A file that is checked and repaired.
use dl_kinds::Plan;
use merkle_trees::SHA256_LEN;

/// A file on the disk, cut into pieces with these hashes, and the other copy of it. Each has a name and the length that
/// it has at the start, 0 where it is missing.
#[derive(Clone, Copy, Debug)]
pub(crate) struct RepairJob<'a> {
    pub plan: Plan,
    pub hashes: &'a [[u8; SHA256_LEN]],
    pub folder: Option<&'a str>,
    pub name: &'a str,
    pub len: u64,
    pub copy: Option<&'a str>,
    pub copy_len: u64,
}
