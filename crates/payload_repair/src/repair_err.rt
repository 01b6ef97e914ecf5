// Why a repair stops.
use thiserror::Error;

/// Why a repair stops. What it did until then stays.
#[derive(Clone, Copy, Debug, PartialEq, Eq, Error)]
pub enum RepairErr {
    #[error("a fault of the disk")]
    Disk,
    #[error("out of memory")]
    NoMemory,
}
