// What an engine keeps.
use dl_disk::Disk;
use machine_core::HandedPieces;
use rate_limits::RateLimits;
use stored_run::StoredRun;

/// What an engine keeps: the run on its disk, the pieces that workers compare, and the buckets.
#[derive(Drop)]
pub struct EngineState<D: Disk> {
    pub(crate) run: StoredRun<D>,
    // The full pieces that workers compare now.
    pub(crate) handed: HandedPieces,
    pub(crate) limits: RateLimits,
}
