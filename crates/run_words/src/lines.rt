// Lines, and texts of others in them.
use std::alloc::{AllocError, Global};

// How much is shown of a text of others.
const MOST_LETTERS: usize = 200;

/// A text of others as it stands in a line: its control characters, which might move a terminal's cursor, are `?`, and a long
/// one is cut.
pub fn shown(alloc: Global, text: &str) -> Result<String, AllocError> {
    let mut line = String::new(alloc);
    for letter in text.chars().take(MOST_LETTERS) {
        line.push(if letter.is_control() { '?' } else { letter })?;
    }
    if text.chars().nth(MOST_LETTERS).is_some() {
        line.push_str("..")?;
    }
    Ok(line)
}

fn before(text: &str, mark: char) -> &str {
    match text.split_once(mark) {
        Some((front, _)) => front,
        None => text,
    }
}

/// The host, with its port, of a URI that names a user in front of it, maybe with a password.
pub fn host_behind_user(uri: &str) -> Option<&str> {
    let (_, rest) = uri.split_once("//")?;
    let place = before(before(before(rest, '/'), '?'), '#');
    place.rsplit_once('@').map(|(_, host)| host)
}

/// A URI as it may be shown: of one that names a user the host alone.
pub fn without_user(uri: &str) -> &str {
    host_behind_user(uri).unwrap_or(uri)
}
