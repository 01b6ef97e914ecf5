//! Control files: what is durable of a download that isn't done, as bytes and as a value (aria2 manual, Technical Notes,
//! "Control File (*.aria2) Format").
#![tactic(auto)]

mod control;
mod fault;
mod fields;
mod laws;
mod names;
mod order;
mod reading;
mod want;
mod writing;

pub use control::{Control, InFlight, InFlights};
pub use fault::ControlErr;
pub use fields::ByteOrder;
pub use laws::control_files_are_read;
pub use names::{CONTROL_SUFFIX, TEMPORARY_SUFFIX};
pub use want::{Opened, Want};
