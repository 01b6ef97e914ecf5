// What is asked of a run, and which keys of its reply.
use dl_kinds::Texts;
use machine_core::Call;

/// Which keys of a status are asked for.
#[derive(Debug, Drop)]
pub enum Keys {
    All,
    These(Texts),
}

/// What a method and its parameters ask for.
#[derive(Debug, Drop)]
pub enum Asking {
    One { call: Call, keys: Keys },
    /// The names of the methods.
    Methods,
}
