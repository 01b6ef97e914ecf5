// What is left of a run.
use console_session::Transcript;
use machine_core::Journal;
use run_report::RunEnding;

/// How a run ended, what its console did, and all that it was given.
pub struct FinishedRun<D, L, K, A> {
    /// The exit status of the program is its code.
    pub ending: RunEnding,
    pub disk: D,
    pub links: Vec<(L, K)>,
    pub doors: Vec<(A, K)>,
    /// One for each door that was served, in order.
    pub transcripts: Vec<Transcript>,
    /// What happened: nothing where the run ended before it began.
    pub journal: Journal,
}
