// Control files, in hexadecimal digits with spaces between the fields.
use anyhow::{Context, Result};
use control_file::{Control, ControlErr};
use std::alloc::Global;

// The fields of a control file as text: EXT, the info hash, the lengths of a piece and of the payload, what was
// uploaded, the verified pieces, and of each piece in flight its number, its length and its blocks.
fn fields_of(alloc: Global, control: &Control) -> Result<String> {
    let mut text = format!(in alloc;
        "{} [{}] {} {} {} {}",
        control.ext,
        hex::encode(alloc, control.info_hash.bytes())?,
        control.piece_len,
        control.total,
        control.uploaded,
        hex::encode(alloc, control.pieces.bytes())?
    )?;
    for piece in control.flight.items() {
        let blocks = hex::encode(alloc, piece.blocks.bytes())?;
        write!(text, " {}:{}:{blocks}", piece.index, piece.length)?;
    }
    Ok(text)
}

// What is read of the bytes: their fields, or why they are no control file.
fn read(alloc: Global, bytes: &[u8]) -> Result<String> {
    match Control::read(alloc, bytes) {
        Ok(control) => fields_of(alloc, &control),
        Err(ControlErr::Wrong { at }) => Ok(format!(in alloc; "wrong at {at}")?),
        Err(ControlErr::Version(version)) => Ok(format!(in alloc; "version {version}")?),
        Err(err) => Ok(format!(in alloc; "{err}")?),
    }
}

// What is written of what is read, where a writer takes it.
fn rewritten(alloc: Global, bytes: &[u8]) -> Result<String> {
    let control = Control::read(alloc, bytes).ok().context("no control file")?;
    if control.is_in_order() {
        Ok(hex::encode(alloc, control.write(alloc)?)?)
    } else {
        Ok(String::from_str(alloc, "out of order")?)
    }
}

// What is read where only the first bytes are there: none, one, two, and so on up to all.
fn cut_off(alloc: Global, bytes: &[u8]) -> Result<String> {
    let mut told = String::new(alloc);
    let mut before = String::new(alloc);
    for count in 0..bytes.len() + 1 {
        let read = read(alloc, &bytes[..count])?;
        if read.as_str() != before.as_str() {
            let line = if count == 0 { "" } else { "\n  " };
            write!(told, "{line}{count} bytes: {read}")?;
        }
        before = read;
    }
    Ok(told)
}

// A control file of pieces of one block, all of which are in flight.
fn of_flights(alloc: Global, pieces: u32) -> Result<Vec<u8>> {
    let mut bytes = Vec::new(alloc);
    bytes.extend_from_slice(b"\x00\x01\x00\x00\x00\x00\x00\x00\x00\x00\x00\x00\x40\x00")?;
    bytes.extend_from_slice(&(pieces as u64 * 16_384).to_be_bytes())?;
    bytes.extend_from_slice(&[0; 8])?;
    let len = pieces.div_ceil(8);
    bytes.extend_from_slice(&len.to_be_bytes())?;
    bytes.resize(bytes.len().saturating_add(len as usize), 0)?;
    bytes.extend_from_slice(&pieces.to_be_bytes())?;
    for piece in 0..pieces {
        bytes.extend_from_slice(&piece.to_be_bytes())?;
        bytes.extend_from_slice(b"\x00\x00\x40\x00\x00\x00\x00\x01\x80")?;
    }
    Ok(bytes)
}

// What is read of that one, and whether the same is written.
fn flights(alloc: Global, pieces: u32) -> Result<String> {
    let bytes = of_flights(alloc, pieces)?;
    let control = Control::read(alloc, &bytes)
        .ok()
        .context("no control file")?;
    let count = control.flight.len();
    let written = rewritten(alloc, &bytes)?;
    let is_same = written.as_str() == hex::encode(alloc, bytes.as_slice())?.as_str();
    let same = if is_same { "the same" } else { "another" };
    Ok(format!(in alloc; "{count} in flight, {same} is written")?)
}

// The bytes of hexadecimal text with spaces between the fields.
fn bytes_of(alloc: Global, text: &str) -> Result<Vec<u8>> {
    Ok(hex::decode(alloc, text.replace(alloc, ' ', "")?.as_str())?)
}

/// What comes of a line about control files; none for another one.
pub fn told(alloc: Global, word: &str, rest: &str) -> Result<Option<String>> {
    Ok(Some(match word {
        "read" => read(alloc, &bytes_of(alloc, rest)?)?,
        "cut" => cut_off(alloc, &bytes_of(alloc, rest)?)?,
        "write" => rewritten(alloc, &bytes_of(alloc, rest)?)?,
        "flights" => flights(alloc, rest.parse::<u32>()?)?,
        _ => return Ok(None),
    }))
}
