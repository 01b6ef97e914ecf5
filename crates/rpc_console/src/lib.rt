//! The methods of the console: which call of a run a method and its parameters ask for.
#![tactic(auto)]

mod admissions;
mod asking;
mod calls;
mod changes;
mod dispatch;
mod errors;
mod further;
mod laws;
mod methods;
mod names;
mod options;
mod params;
mod tokens;
mod torrents;
mod uris;
mod windows;

pub use admissions::admission;
pub use asking::{Asking, Keys};
pub use calls::{bare_asking, keyed_asking, position_asking, status_asking};
pub use changes::{change_asking, global_change_asking};
pub use dispatch::{asking_of, call_of};
pub use errors::RpcErr;
pub use laws::{askings_are_lawful, limits_are_told, methods_have_names};
pub use methods::{BareMethod, KeyMethod, METHODS, Method, WindowMethod};
pub use names::method_names;
pub use options::{OptionUse, options_of};
pub use tokens::is_authorized;
pub use torrents::{MAX_TORRENT_LEN, torrent_asking};
pub use uris::uri_asking;
pub use windows::{active_asking, window_asking};
