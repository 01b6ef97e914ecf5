// How downloads and runs end, by words.
use crate::rig::mark_at;
use dl_kinds::Gid;
use machine_core::End;
use run_report::{MetainfoFault, RunEnding};
use test_lines::{keyword, u32_at, u64_at, word};

const METAINFO: [(&str, MetainfoFault); 7] = [
    ("missing", MetainfoFault::Missing),
    ("unread", MetainfoFault::Unread),
    ("long", MetainfoFault::TooLong),
    ("bencode", MetainfoFault::NotBencode),
    ("unusable", MetainfoFault::Unusable),
    ("mirrors", MetainfoFault::NoMirror),
    ("many", MetainfoFault::TooManyMirrors),
];

/// The ending of a run that a word names.
pub fn ending_by(name: &str) -> RunEnding {
    let endings = [
        ("meaning", RunEnding::NoMeaning),
        ("memory", RunEnding::NoMemory),
        ("output", RunEnding::SinkFault),
        ("unfinished", RunEnding::Unfinished),
        ("failed", RunEnding::Failed(End::Checksum)),
    ];
    keyword(&endings, name, RunEnding::Done)
}

/// The fault of a metainfo file that a word names.
pub fn fault_by(name: &str) -> MetainfoFault {
    keyword(&METAINFO, name, MetainfoFault::Unusable)
}

/// The end of a download that a line names, such as `end dead 3 6 0`.
pub fn end_of(line: &str) -> End {
    let (have, want) = (u64_at(line, 2), u64_at(line, 3));
    match word(line, 1) {
        "dead" => End::Dead {
            piece: u32_at(line, 2),
            mark: mark_at(line, 3),
        },
        "disk" => End::Disk { count: have },
        "exists" => End::Exists { length: have },
        "pieces" => End::PieceLength {
            have: u32_at(line, 2),
            want: u32_at(line, 3),
        },
        "length" => End::Length { have, want },
        "hash" => End::InfoHash,
        "unreadable" => End::Unreadable { at: have },
        "large" => End::TooLarge { total: have },
        "file" => End::SameFile { gid: Gid(have) },
        "info" => End::SameHash { gid: Gid(have) },
        "checksum" => End::Checksum,
        _ => End::Complete,
    }
}
