//! What a large load is made of: the word that asks for it, its payload, the mirrors and the disk that it runs over, and
//! its line.
#![tactic(auto)]

mod counting;
mod disk;
mod laws;
mod line;
mod links;
mod payload;
mod sink;
mod sound_disk;
mod sound_links;
mod torrent;
mod words;

pub use counting::count_right;
pub use disk::{PAYLOAD, load_disk, payload_on};
pub use laws::{limits_are_told, metainfo_files_say_payloads, words_name_load};
pub use line::{failed_line, whole_line};
pub use links::{LOAD_LINKS, load_link};
pub use payload::{PIECE, PIECES, TOTAL, load_digests};
pub use sink::UnseenSink;
pub use sound_disk::SoundDisk;
pub use sound_links::SoundLinks;
pub use torrent::{TORRENT, load_metainfo};
pub use words::{load_of, load_words};
