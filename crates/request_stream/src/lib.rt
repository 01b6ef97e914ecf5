//! Requests to the console, one behind another in the bytes of a connection, and the texts of their responses.
#![tactic(auto)]

mod laws;
mod next;
mod parts;
mod progress;
mod refusal;
mod response;

pub use laws::requests_are_one_and_stay;
pub use next::{NextRequest, next_request};
pub use parts::HeadPart;
pub use progress::RequestProgress;
pub use refusal::Refusal;
pub use response::{refusal_response, response_head};
