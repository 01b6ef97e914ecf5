//! Laws of what mirrors in memory serve: which bytes come by streams that gave their answers, or fronts of these, and
//! which bad answers were used where others come. The functions do nothing when they run.
#![tactic(auto)]

mod laws;

pub use laws::{
    bad_answers_pay, clean_mirrors_stay, good_mirrors_serve, mirrors_hold_alike, served_comes,
    served_sizes_are_told, urls_lead_once,
};
