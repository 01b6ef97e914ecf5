//! The console's door: requests of HTTP/1.1 over the connections of clients, each answered in order by a session, until the
//! run is finished.
#![tactic(auto)]

mod answering;
mod ends;
mod intake;
mod keeping;
mod laws;
mod talking;
mod writing;

pub use console_socket::{Inward, Session, SocketEnd};
pub use ends::{ConnectionEnd, DoorEnd};
pub use intake::{Intake, PIECE_BYTES};
pub use keeping::{DoorKept, keep_door};
pub use laws::upgrades_are_refused_over_http;
pub use talking::serve_connection;
