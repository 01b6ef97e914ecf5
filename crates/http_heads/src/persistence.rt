// Whether a connection ends behind the answer to a request.
ghost use Rattle.std.specs.Prelude.{◌≡◌};
ghost use Rattle.http_heads.specs.Persistence.{hangs_up};

use crate::AskHead;
use crate::fields::field_names;

/// Whether the connection is to be closed behind the answer: the request is HTTP/1.0, or a field `Connection` names the
/// option `close`, in any case.
pub fn hangs_up(head: &AskHead) -> bool
    ensures { result ≡ hangs_up head.now }
{
    head.minor == 0 || field_names(&head.fields, "connection", b"close")
}
