//! The console of a run: a session at each door. Each call of a method is one turn of the run, and what is told of it is
//! the turn's reply.
#![tactic(auto)]

mod attendant;
mod laws;
mod noticing;
mod serving;
mod session;

pub use laws::{
    calls_stand_where_replied, doors_tell_notices, limits_are_told, replies_are_of_the_history,
    socket_steps_tell_all,
};
pub use serving::{Transcript, serve_door};
