// The size of a file.
ghost use Rattle.std.specs.Prelude.{◌≡◌, ℕ, IfSome, IfNone};
ghost use Rattle.ftp_replies.specs.Sizes.{TellsSize};

use crate::SIZE_LIMIT;
use dl_kinds::numeral_value;

/// The size that the last line of a reply to SIZE tells, if it is below 2^63.
pub fn told_size(line: &[u8]) -> Option<u64>
    ensures some { IfSome result (TellsSize line.now) }
    ensures none { IfNone result ((size : ℕ) → TellsSize line.now size → ⊥) }
{
    let digits = line.strip_prefix(b"213 ")?.strip_suffix(b"\r\n")?;
    let size = numeral_value(digits)?;
    if size < SIZE_LIMIT { Some(size) } else { None }
}
