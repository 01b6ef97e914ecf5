//! Metainfo files (BEP 3) and the URLs of files at web seeds (BEP 19).
#![tactic(auto)]

mod fields;
mod files;
mod jobs;
mod laws;
mod meta;
mod reading;
mod refusals;
mod rules;
mod seeds;
mod urls;

pub use jobs::mirror_job;
pub use laws::{limits_are_told, metainfo_is_sound, tests_say_what_holds};
pub use meta::Meta;
pub use refusals::{Key, MetaErr};
pub use rules::DIGEST_LEN;
