// What is asked of a run.
use dl_kinds::{GidKey, Texts};
use dl_queue::How;
use metainfo::Meta;
use option_set::Settings;

/// What a console session or the command line asks of the run (aria2 manual, "RPC interface").
#[derive(Debug, Drop)]
pub enum Call {
    AddUri {
        uris: Texts,
        options: Settings,
        position: Option<u32>,
    },
    AddTorrent {
        meta: Box<Meta>,
        uris: Texts,
        options: Settings,
        position: Option<u32>,
    },
    Remove {
        key: GidKey,
    },
    Pause {
        key: GidKey,
    },
    Unpause {
        key: GidKey,
    },
    PauseAll,
    UnpauseAll,
    ChangeOption {
        key: GidKey,
        options: Settings,
    },
    ChangeGlobalOption {
        options: Settings,
    },
    TellStatus {
        key: GidKey,
    },
    TellActive,
    TellWaiting {
        offset: i64,
        num: u32,
    },
    TellStopped {
        offset: i64,
        num: u32,
    },
    GetUris {
        key: GidKey,
    },
    GetFiles {
        key: GidKey,
    },
    GetOption {
        key: GidKey,
    },
    GetGlobalOption,
    GetGlobalStat,
    ChangePosition {
        key: GidKey,
        pos: i64,
        how: How,
    },
    Purge,
    RemoveResult {
        key: GidKey,
    },
    GetVersion,
    Shutdown,
}
