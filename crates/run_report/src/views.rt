// What is told of downloads, their files and their mirrors (aria2 manual, `aria2.tellStatus`, `aria2.getFiles`,
// `aria2.getUris` and `aria2.getGlobalStat`).
use crate::{FileViews, UriViews};
use dl_kinds::{Gid, Status, Text};

/// What is told of a download. Lengths are in bytes, and speeds in bytes a second.
#[derive(Debug, Drop)]
pub struct StatusView {
    /// The verified pieces, the first one in the highest bit, as hexadecimal digits in lower case. None before the
    /// download is opened.
    pub bitfield: Option<Text>,
    /// The bytes of the blocks that have landed.
    pub completed_length: u64,
    /// How many claims of its mirrors stand.
    pub connections: u64,
    pub dir: Text,
    pub download_speed: u64,
    /// Of one that has ended, but for one that was removed: 0 where it is complete.
    pub error_code: Option<u64>,
    /// .. in words, which are none where it is complete.
    pub error_message: Option<Text>,
    pub files: FileViews,
    pub gid: Gid,
    /// The SHA-1 digest that a metainfo file has, as 40 hexadecimal digits in lower case.
    pub info_hash: Option<Text>,
    /// 0 while the length isn't known.
    pub num_pieces: u64,
    pub piece_length: u64,
    pub status: Status,
    /// 0 while it isn't known.
    pub total_length: u64,
    /// Always 0: nothing is uploaded.
    pub upload_length: u64,
    /// Always 0.
    pub upload_speed: u64,
}

/// What is told of a file of a payload. Lengths are in bytes.
#[derive(Debug, Drop)]
pub struct FileView {
    /// The bytes of verified pieces that the file has.
    pub completed_length: u64,
    /// Its number, from 1.
    pub index: u64,
    pub length: u64,
    /// Its name on the disk.
    pub path: Text,
    /// Whether `select-file` selects it.
    pub selected: bool,
    pub uris: UriViews,
}

/// Whether a mirror is asked.
#[derive(Clone, Copy, Debug, PartialEq, Eq)]
pub enum UriStatus {
    /// A claim of the mirror stands.
    Used,
    Waiting,
}

/// Where a file is at a mirror.
#[derive(Debug, Drop)]
pub struct UriView {
    pub status: UriStatus,
    pub uri: Text,
}

/// What is told of all downloads. Speeds are in bytes a second.
#[derive(Clone, Copy, Debug, PartialEq, Eq)]
pub struct StatView {
    pub download_speed: u64,
    pub num_active: u64,
    /// Those that stand in the list of the stopped ones.
    pub num_stopped: u64,
    /// .. and those that were taken out of it.
    pub num_stopped_total: u64,
    /// Those that wait, paused ones too.
    pub num_waiting: u64,
    /// Always 0: nothing is uploaded.
    pub upload_speed: u64,
}
