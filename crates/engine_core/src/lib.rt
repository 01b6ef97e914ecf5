//! A run that is steered by turns: each operation is the turn that the definitions of `engine_turns` say.
#![tactic(auto)]

mod calls;
mod claims;
mod engine;
mod following;
mod front;
mod granting;
mod handing;
mod noticing;
mod performing;
mod sealing;
mod serving;
mod state;

pub use engine::Engine;
pub use serving::RunBeginning;
pub use state::EngineState;
