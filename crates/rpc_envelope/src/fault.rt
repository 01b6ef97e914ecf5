// Why a request is refused.
ghost use Rattle.std.specs.Prelude.{◌≡◌, IfOk};
ghost use Rattle.serde_json.specs.View.{view};
ghost use Rattle.rpc_envelope.specs.Faults.{fault_code, fault_text, fault_data};

use dl_kinds::{NoMemory, Status};
use serde_json::{Map, Value, put};
use std::alloc::Global;

/// Why a request is refused. Each has a code and a text (JSON-RPC 2.0 section 5.1).
#[derive(Clone, Copy, Debug, PartialEq, Eq)]
pub enum RpcFault {
    /// The body is no JSON, or nests too deep.
    NoJson,
    /// It is JSON, and no request.
    NoRequest,
    NoMethod,
    BadParams,
    /// The secret is missing or wrong.
    Unauthorized,
    /// A multicall within a multicall.
    Nested,
    /// The journal of the run takes no more turns.
    JournalFull,
    GidUnknown,
    GidAmbiguous,
    WrongStatus(Status),
    GidInUse,
    TooManyDownloads,
    NotBencode,
    UnusableTorrent,
    NoUsableUri,
    TooManyUris,
    OptionUnknown,
    OptionBadValue,
    OptionOutOfRange,
    /// The call doesn't take the option.
    OptionFixed,
}

fn status_text(status: Status) -> &'static str
    ensures { result.now ≡ fault_text (RpcFault.WrongStatus status) }
{
    match status {
        Status::Active => "GID cannot be changed in status active",
        Status::Waiting => "GID cannot be changed in status waiting",
        Status::Paused => "GID cannot be changed in status paused",
        Status::Failed => "GID cannot be changed in status error",
        Status::Complete => "GID cannot be changed in status complete",
        Status::Removed => "GID cannot be changed in status removed",
    }
}

impl RpcFault {
    pub fn code(self) -> i32
        ensures { result ≡ fault_code self }
    {
        match self {
            RpcFault::NoJson => -32700,
            RpcFault::NoRequest => -32600,
            RpcFault::NoMethod => -32601,
            RpcFault::BadParams => -32602,
            _ => 1,
        }
    }

    pub fn text(self) -> &'static str
        ensures { result.now ≡ fault_text self }
    {
        match self {
            RpcFault::NoJson => "Parse error",
            RpcFault::NoRequest => "Invalid Request",
            RpcFault::NoMethod => "Method not found",
            RpcFault::BadParams => "Invalid params",
            RpcFault::Unauthorized => "Unauthorized",
            RpcFault::Nested => "nested multicall is refused",
            RpcFault::JournalFull => "journal is full",
            RpcFault::GidUnknown => "GID is not found",
            RpcFault::GidAmbiguous => "GID is not unique",
            RpcFault::WrongStatus(status) => status_text(status),
            RpcFault::GidInUse => "GID is in use",
            RpcFault::TooManyDownloads => "too many downloads",
            RpcFault::NotBencode => "bencoded bytes are wrong",
            RpcFault::UnusableTorrent => "torrent is not usable",
            RpcFault::NoUsableUri => "no usable URI",
            RpcFault::TooManyUris => "too many URIs",
            RpcFault::OptionUnknown => "option is unknown",
            RpcFault::OptionBadValue => "option value is wrong",
            RpcFault::OptionOutOfRange => "option value is out of range",
            RpcFault::OptionFixed => "option cannot be changed",
        }
    }
}

/// An object of the fault's code and text.
pub(crate) fn fault_value(alloc: Global, fault: RpcFault) -> Result<Value, NoMemory>
    ensures { IfOk result (λ value. view value ≡ fault_data fault) }
{
    let text = Value::try_from_str(alloc, fault.text())?;
    let mut members = Map::new(alloc);
    put(&mut members, alloc, "code", Value::from(fault.code()))?;
    put(&mut members, alloc, "message", text)?;
    Ok(Value::Object(members))
}
