// The status of a download.

/// The status of a download, as the aria2 manual's `aria2.tellStatus` has it.
#[derive(Clone, Copy, Debug, PartialEq, Eq)]
pub enum Status {
    /// It is being fetched.
    Active,
    /// It waits for its turn.
    Waiting,
    /// It stands in the queue and doesn't get a turn.
    Paused,
    /// An error ended it (the manual's `error`).
    Failed,
    Complete,
    Removed,
}
