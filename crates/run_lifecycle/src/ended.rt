// What is left of a run.
use machine_core::Journal;
use run_report::RunEnding;

/// How a run ended, with its disk and what happened.
pub struct Ended<D> {
    pub ending: RunEnding,
    pub disk: D,
    pub journal: Journal,
}

/// How a run ended, and all that it was given.
pub struct Finished<D, L, K, A> {
    /// The exit status of the program is its code.
    pub ending: RunEnding,
    pub disk: D,
    pub links: Vec<(L, K)>,
    pub doors: Vec<(A, K)>,
    /// What happened: nothing where the run ended before it began.
    pub journal: Journal,
}
