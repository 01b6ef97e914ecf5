// Content in chunks.
ghost use Rattle.std.specs.Prelude.{◌≡◌, ◌++◌, IfOk, OnOk};
ghost use Rattle.link_source.specs.Chunks.{chunk, in_chunks};

use std::alloc::{AllocError, Global};

/// The most bytes of a chunk.
const CHUNK: usize = 4_096;

// Writes a chunk behind the text.
fn add_chunk(alloc: Global, text: &mut Vec<u8>, bytes: &[u8]) -> Result<(), AllocError>
    ensures { OnOk result (text.new.items ≡ text.old.items ++ chunk bytes.now) }
{
    let size = format!(in alloc; "{:x}\r\n", bytes.len())?;
    text.extend_from_slice(size.as_bytes())?;
    text.extend_from_slice(bytes)?;
    text.extend_from_slice(b"\r\n")
}

/// The content in chunks, and the last chunk.
pub fn in_chunks(alloc: Global, content: &[u8]) -> Result<Vec<u8>, AllocError>
    ensures { IfOk result (λ text. text.items ≡ in_chunks content.now) }
{
    let mut text = Vec::new(alloc);
    for number in 0..content.len().div_ceil(CHUNK) {
        let start = number * CHUNK;
        let end = content.len().min(start + CHUNK);
        add_chunk(alloc, &mut text, &content[start..end])?;
    }
    text.extend_from_slice(b"0\r\n\r\n")?;
    Ok(text)
}
