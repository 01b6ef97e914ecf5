// Whether a connection persists behind a reply.
ghost use Rattle.std.specs.Prelude.{◌≡◌};
ghost use Rattle.range_http.specs.Persistence.{persists};

use http_heads::{Head, field_names};

/// Whether the connection may take another request behind the reply: it is HTTP/1.1, and no field `Connection` names the
/// option `close`, in any case. Other options, as `Upgrade`, don't end it.
pub fn persists(head: &Head) -> bool
    ensures { result ≡ persists head.now }
{
    head.minor == 1 && !field_names(&head.fields, "connection", b"close")
}
