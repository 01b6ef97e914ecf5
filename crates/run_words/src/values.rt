// Which values an option may have, in words.
use option_set::{NumRow, Opt, Rule, Spelling};
use std::alloc::{AllocError, Global};
use std::fmt::Write;

const KIB: u64 = 1_024;

const MIB: u64 = 1_048_576;

// A count of bytes as an option's value spells it.
fn add_size(text: &mut String, bytes: u64) -> Result<(), AllocError> {
    if bytes > 0 && bytes % MIB == 0 {
        write!(text, "{}M", bytes / MIB)
    } else if bytes > 0 && bytes % KIB == 0 {
        write!(text, "{}K", bytes / KIB)
    } else {
        write!(text, "{bytes}")
    }
}

fn add_number(text: &mut String, row: &NumRow) -> Result<(), AllocError> {
    match row.spelling {
        Spelling::Plain => write!(text, "a number from {} to {}", row.least, row.most),
        Spelling::Size => {
            text.push_str("a number of bytes from ")?;
            add_size(text, row.least)?;
            text.push_str(" to ")?;
            add_size(text, row.most)?;
            text.push_str(", which may end in K or M")
        }
        Spelling::Truth => text.push_str("nothing"),
    }
}

fn rule_words(rule: Rule) -> &'static str {
    match rule {
        Rule::Filled => "some text",
        Rule::Folder => "the name of a folder",
        Rule::FilePart => "a file's name, without a slash",
        Rule::Checksum =>
            "the name of a digest and its digits, as sha-1=da39a3ee5e6b4b0d3255bfef95601890afd80709",
        Rule::Gid => "16 hexadecimal digits",
        Rule::FileList => "numbers of files, as 1,3-5",
    }
}

/// Adds which values the option may have that a line gives this name.
pub fn add_wanted(text: &mut String, name: &str, option: Opt) -> Result<(), AllocError> {
    match option {
        _ if name == "verify-v2" => text.push_str("the name of a metainfo file"),
        Opt::Num(num) => add_number(text, &num.row()),
        Opt::Word(word) => text.push_str(rule_words(word.row().rule)),
    }
}
