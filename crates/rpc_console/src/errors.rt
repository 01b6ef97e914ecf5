// Why a call isn't made.
ghost use Rattle.std.specs.Prelude.{◌≡◌};
ghost use Rattle.rpc_console.specs.declared.errors.RpcErr.TheVariants.{NoMemory};

use rpc_envelope::RpcFault;
use std::alloc::{AllocError, AllocFailed};

/// Why a call isn't made.
#[derive(Clone, Copy, Debug, PartialEq, Eq)]
pub enum RpcErr {
    Refused(RpcFault),
    NoMemory,
}

impl From<AllocError> for RpcErr {
    ghost from_gives = { λ _ e. e ≡ NoMemory };

    fn from(_: AllocError) -> Self {
        RpcErr::NoMemory
    }
}

impl<T: Drop> From<AllocFailed<T>> for RpcErr {
    ghost from_gives = { λ _ e. e ≡ NoMemory };

    fn from(_: AllocFailed<T>) -> Self {
        RpcErr::NoMemory
    }
}
