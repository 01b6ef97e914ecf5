// What is printed of bytes, files and needs.
use crate::rig::{Rig, words_of};
use aria_top::needs_of;
use dl_disk::MemDisk;
use std::alloc::Global;
use test_lines::Output;

fn tell_text(text: &str, output: &mut Output) {
    let mut is_behind_return = false;
    for letter in text.chars() {
        match letter {
            '\r' => {}
            '\n' if is_behind_return => output.letter('|'),
            '\n' => output.text("%0a"),
            _ => output.letter(letter),
        }
        is_behind_return = letter == '\r';
    }
}

// Prints a byte as `%` and two digits.
fn tell_digits(byte: u8, output: &mut Output) {
    output.text(if byte < 16 { "%0" } else { "%" });
    output.hex(u64::from(byte));
}

fn tell_frames(bytes: &[u8], output: &mut Output) {
    let mut is_behind_return = false;
    for byte in bytes {
        let is_end = is_behind_return && *byte == b'\n';
        if is_behind_return && !is_end {
            tell_digits(b'\r', output);
        }
        match *byte {
            b'\r' => {}
            b'\n' if is_end => output.letter('|'),
            b' '..=b'~' => output.letter(char::from(*byte)),
            byte => tell_digits(byte, output),
        }
        is_behind_return = *byte == b'\r';
    }
    if is_behind_return {
        tell_digits(b'\r', output);
    }
}

/// Prints bytes in a line: `|` is CR and LF, and `%0a` LF alone. Where they are no text, as the frames of a WebSocket, each byte
/// that isn't printed stands as `%81` for the byte 129.
pub fn tell_bytes(bytes: &[u8], output: &mut Output) {
    match str::from_utf8(bytes) {
        Ok(text) => tell_text(text, output),
        Err(_) => tell_frames(bytes, output),
    }
    output.text(if bytes.is_empty() { "nothing\n" } else { "\n" });
}

/// Prints what the files of the case hold that are to be shown.
pub fn tell_files(rig: &Rig, disk: &MemDisk, output: &mut Output) {
    for name in &rig.shown {
        output.text("  ");
        output.text(name.as_str());
        match disk.file(name.as_str()) {
            Some(bytes) => {
                output.text(" has ");
                tell_bytes(bytes, output);
            }
            None => output.text(" isn't there\n"),
        }
    }
}

/// Prints what a run of these words needs.
pub fn tell_needs(alloc: Global, line: &str, output: &mut Output) {
    let Ok(words) = words_of(alloc, line) else {
        output.text("  out of memory\n");
        return;
    };
    match needs_of(alloc, &words) {
        Ok(Some(needs)) => {
            output.counted("  links ", u64::from(needs.links));
            output.counted(", doors ", u64::from(needs.doors));
            output.counted(", port ", u64::from(needs.port));
            output.text("\n");
        }
        Ok(None) => output.text("  no meaning\n"),
        Err(_) => output.text("  out of memory\n"),
    }
}
