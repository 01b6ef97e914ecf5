// Where URLs lead (RFC 1738 section 3.2).
use crate::spelling::add_shown;
use ftp_places::{FtpErr, FtpPlace};
use std::alloc::Global;
use test_lines::{Output, name_of};

const REFUSALS: [(&str, FtpErr); 4] = [
    ("no URL", FtpErr::NotUrl),
    ("another scheme", FtpErr::Scheme),
    ("no path", FtpErr::BadPath),
    ("out of memory", FtpErr::NoMemory),
];

/// Adds the host, the port and the path to which a URL leads, or why it leads to none.
pub fn add_place(alloc: Global, url: &str, output: &mut Output) {
    match FtpPlace::of(alloc, url) {
        Ok(place) => {
            output.text(place.host.as_str());
            output.counted(" ", place.port as u64);
            output.text(" ");
            add_shown(alloc, place.path.bytes(), output);
        }
        Err(refused) => output.text(name_of(&REFUSALS, &refused)),
    }
}
