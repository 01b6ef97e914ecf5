// The line that a load prints.
ghost use Rattle.std.specs.Prelude.{◌≡◌, IfOk, string_bytes};
ghost use Rattle.load_setup.specs.Line.{failed_line, whole_line};

use std::alloc::{AllocError, Global};

/// The line of a load whose run ended with 0: how many pieces are right, and the digest of the payload.
pub fn whole_line(
    alloc: Global,
    n: u64,
    right: u64,
    digest: &[u8; 20],
) -> Result<String, AllocError>
    ensures { IfOk result (λ line. string_bytes line ≡ whole_line n right digest.now) }
{
    let digest = hex::encode(alloc, digest)?;
    let line = format!(in alloc;
        "load {n} pieces 64 right {right} bytes 67108864 sha1 {digest}\n"
    )?;
    Ok(line)
}

/// The line of a load whose run ended otherwise.
pub fn failed_line(alloc: Global, n: u64, status: u8) -> Result<String, AllocError>
    ensures { IfOk result (λ line. string_bytes line ≡ failed_line n status) }
{
    let line = format!(in alloc; "load {n} status {status}\n")?;
    Ok(line)
}
