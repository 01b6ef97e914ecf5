//! What an HTTP origin answers: which file a target names, which bytes of it a range asks for, and the heads of the
//! replies.
#![tactic(auto)]

mod aim;
mod laws;
mod name;
mod reply;
mod span;

pub use aim::{Aim, aim_of, is_get, reply_by_length, tells_content};
pub use laws::{
    askings_are_one_and_stay, limits_are_told, names_lie_below, parts_are_classified,
    spans_lie_within,
};
pub use name::name_of;
pub use reply::{Reply, first_sent, len_sent, reply_by_span, reply_head};
pub use span::{Span, span_of};
