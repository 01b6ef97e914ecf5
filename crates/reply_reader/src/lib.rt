//! One reply to a request for a range, read as its stream comes: its heads, and the bytes of its content that were asked
//! for. The answer is that of the whole stream, however it was cut.
#![tactic(auto)]

mod heads;
mod laws;
mod loss;
mod slices;

pub use heads::{HeadReader, HeadsRead, INTERIM_LIMIT};
pub use laws::{
    answers_fill_what_is_asked, final_heads_are_one_and_stay, limits_are_told,
    replies_are_read_short, streams_have_one_answer,
};
pub use loss::Loss;
pub use slices::{MAX_PIECE_BYTES, SliceRead, SliceReader, SliceState};
