// Metainfo files of cases. Their digests are all the same.
use std::alloc::{AllocError, Global};

const DIGEST: &str = "abcdefghijklmnopqrst";

// The lengths of the files, as a metainfo file has them: of one, or of at most nine with the names 1, 2 and so on.
fn files(alloc: Global, lens: &[u32]) -> Result<String, AllocError> {
    if let [len] = lens {
        return format!(in alloc; "6:lengthi{len}e");
    }
    let mut text = String::from_str(alloc, "5:filesl")?;
    let mut number: u32 = 0;
    for len in lens {
        number = number.saturating_add(1);
        write!(text, "d6:lengthi{len}e4:pathl1:{number}ee")?;
    }
    text.push('e')?;
    Ok(text)
}

// Web seeds at these hosts, each of which has a letter. One alone stands without a list.
fn seeds(alloc: Global, hosts: &str) -> Result<String, AllocError> {
    let mut text = String::new(alloc);
    for host in hosts.chars() {
        write!(text, "14:http://{host}.test/")?;
    }
    if hosts.len() == 1 {
        return Ok(text);
    }
    format!(in alloc; "l{text}e")
}

/// A metainfo file of a payload of this name, in pieces of this length, whose files have these lengths, at these hosts.
pub fn metainfo(
    alloc: Global,
    name: &str,
    piece_len: u32,
    lens: &[u32],
    hosts: &str,
) -> Result<String, AllocError> {
    let mut total: u32 = 0;
    for len in lens {
        total = total.saturating_add(*len);
    }
    let count = if piece_len == 0 {
        0
    } else {
        total.div_ceil(piece_len).min(1_000)
    };
    let digests = DIGEST.repeat(alloc, count as usize)?;
    let files = files(alloc, lens)?;
    let seeds = seeds(alloc, hosts)?;
    format!(in alloc;
        "d4:infod{files}4:name{}:{name}12:piece lengthi{piece_len}e6:pieces{}:{digests}e8:url-list{seeds}e",
        name.len(),
        digests.len()
    )
}
