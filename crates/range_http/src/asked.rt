// What is asked of a mirror.
ghost use Rattle.std.specs.Prelude.{◌≡◌, IfOk};
ghost use Rattle.range_http.specs.Request.{request_text};

use dl_kinds::NoMemory;
use std::alloc::Global;

/// The bytes of a resource that are asked for, from the first to the last, counted from 0.
#[derive(Clone, Copy, Debug, PartialEq, Eq)]
pub struct Asked {
    pub first: u64,
    pub last: u64,
    /// The length of the whole resource. None is for a probe, which asks for it.
    pub total: Option<u64>,
}

/// The request for a range, as it is sent. The target is the path with the query, and the host is all that the field
/// `Host` says, with the port where it is named.
pub fn request(alloc: Global, target: &str, host: &str, asked: &Asked) -> Result<Vec<u8>, NoMemory>
    ensures { IfOk result (λ bytes. bytes.items ≡ request_text target.now host.now asked.now) }
{
    let first = asked.first;
    let last = asked.last;
    let text = format!(in alloc;
        "GET {target} HTTP/1.1\r\nHost: {host}\r\nUser-Agent: aria_cli\r\nAccept: */*\r\n\
         Accept-Encoding: identity\r\nRange: bytes={first}-{last}\r\n\r\n"
    )?;
    Ok(text.into_bytes())
}
