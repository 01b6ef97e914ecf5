//! Requests of JSON-RPC 2.0 as aria2's console has them: batches, notifications, `system.multicall`, and the text that
//! answers a body. What a method does is its caller's.
#![tactic(auto)]

mod answers;
mod asks;
mod batches;
mod bodies;
mod caller;
mod fault;
mod parts;
mod texts;

pub use asks::untokened;
pub use bodies::answer_body;
pub use caller::{Caller, Outcome};
pub use fault::RpcFault;
pub use texts::{LongText, Passage};
