//! The console over a WebSocket (RFC 6455): the handshake, the messages of a client, the texts that a session answers them,
//! and the notices that it sends unasked, until the run is finished.
#![tactic(auto)]

mod ends;
mod hearing;
mod session;
mod socket;
mod stream;
mod talking;
mod upgrade;

pub use ends::SocketEnd;
pub use session::{Inward, Session};
pub use socket::keep_socket;
pub use upgrade::upgrade_at;
