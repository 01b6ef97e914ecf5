// The methods, by their names.
ghost use Rattle.std.specs.Prelude.{◌≡◌};
ghost use Rattle.rpc_console.specs.Methods.{bare_name, bare_call, keyed_name, keyed_call, window_name, window_call, method_name, method_named};

use dl_kinds::GidKey;
use machine_core::Call;

/// A method without parameters.
#[derive(Clone, Copy, Debug, PartialEq, Eq)]
pub enum BareMethod {
    GetGlobalOption,
    GetGlobalStat,
    GetVersion,
    PauseAll,
    Purge,
    Shutdown,
    UnpauseAll,
}

/// A method whose one parameter names a download.
#[derive(Clone, Copy, Debug, PartialEq, Eq)]
pub enum KeyMethod {
    GetFiles,
    GetOption,
    GetUris,
    Pause,
    Remove,
    RemoveResult,
    Unpause,
}

/// A method that lists some of the downloads that wait, or have stopped.
#[derive(Clone, Copy, Debug, PartialEq, Eq)]
pub enum WindowMethod {
    TellStopped,
    TellWaiting,
}

/// A method that one call of a run carries out, or the list of all methods.
#[derive(Clone, Copy, Debug, PartialEq, Eq)]
pub enum Method {
    AddTorrent,
    AddUri,
    Bare(BareMethod),
    ChangeGlobalOption,
    ChangeOption,
    ChangePosition,
    Keyed(KeyMethod),
    ListMethods,
    TellActive,
    TellStatus,
    Window(WindowMethod),
}

/// All of them, by their names in ascending order.
pub const METHODS: [Method; 24] = [
    Method::AddTorrent,
    Method::AddUri,
    Method::ChangeGlobalOption,
    Method::ChangeOption,
    Method::ChangePosition,
    Method::Keyed(KeyMethod::GetFiles),
    Method::Bare(BareMethod::GetGlobalOption),
    Method::Bare(BareMethod::GetGlobalStat),
    Method::Keyed(KeyMethod::GetOption),
    Method::Keyed(KeyMethod::GetUris),
    Method::Bare(BareMethod::GetVersion),
    Method::Keyed(KeyMethod::Pause),
    Method::Bare(BareMethod::PauseAll),
    Method::Bare(BareMethod::Purge),
    Method::Keyed(KeyMethod::Remove),
    Method::Keyed(KeyMethod::RemoveResult),
    Method::Bare(BareMethod::Shutdown),
    Method::TellActive,
    Method::TellStatus,
    Method::Window(WindowMethod::TellStopped),
    Method::Window(WindowMethod::TellWaiting),
    Method::Keyed(KeyMethod::Unpause),
    Method::Bare(BareMethod::UnpauseAll),
    Method::ListMethods,
];

impl BareMethod {
    fn name(self) -> &'static str
        ensures { result.now ≡ bare_name self }
    {
        match self {
            BareMethod::GetGlobalOption => "aria2.getGlobalOption",
            BareMethod::GetGlobalStat => "aria2.getGlobalStat",
            BareMethod::GetVersion => "aria2.getVersion",
            BareMethod::PauseAll => "aria2.pauseAll",
            BareMethod::Purge => "aria2.purgeDownloadResult",
            BareMethod::Shutdown => "aria2.shutdown",
            BareMethod::UnpauseAll => "aria2.unpauseAll",
        }
    }

    /// The call that it makes.
    pub fn call(self) -> Call
        ensures { result ≡ bare_call self }
    {
        match self {
            BareMethod::GetGlobalOption => Call::GetGlobalOption,
            BareMethod::GetGlobalStat => Call::GetGlobalStat,
            BareMethod::GetVersion => Call::GetVersion,
            BareMethod::PauseAll => Call::PauseAll,
            BareMethod::Purge => Call::Purge,
            BareMethod::Shutdown => Call::Shutdown,
            BareMethod::UnpauseAll => Call::UnpauseAll,
        }
    }
}

impl KeyMethod {
    fn name(self) -> &'static str
        ensures { result.now ≡ keyed_name self }
    {
        match self {
            KeyMethod::GetFiles => "aria2.getFiles",
            KeyMethod::GetOption => "aria2.getOption",
            KeyMethod::GetUris => "aria2.getUris",
            KeyMethod::Pause => "aria2.pause",
            KeyMethod::Remove => "aria2.remove",
            KeyMethod::RemoveResult => "aria2.removeDownloadResult",
            KeyMethod::Unpause => "aria2.unpause",
        }
    }

    /// The call that it makes of the downloads that the key names.
    pub fn call(self, key: GidKey) -> Call
        ensures { result ≡ keyed_call self key }
    {
        match self {
            KeyMethod::GetFiles => Call::GetFiles { key },
            KeyMethod::GetOption => Call::GetOption { key },
            KeyMethod::GetUris => Call::GetUris { key },
            KeyMethod::Pause => Call::Pause { key },
            KeyMethod::Remove => Call::Remove { key },
            KeyMethod::RemoveResult => Call::RemoveResult { key },
            KeyMethod::Unpause => Call::Unpause { key },
        }
    }
}

impl WindowMethod {
    fn name(self) -> &'static str
        ensures { result.now ≡ window_name self }
    {
        match self {
            WindowMethod::TellStopped => "aria2.tellStopped",
            WindowMethod::TellWaiting => "aria2.tellWaiting",
        }
    }

    /// The call that it makes.
    pub fn call(self, offset: i64, num: u32) -> Call
        ensures { result ≡ window_call self offset num }
    {
        match self {
            WindowMethod::TellStopped => Call::TellStopped { offset, num },
            WindowMethod::TellWaiting => Call::TellWaiting { offset, num },
        }
    }
}

impl Method {
    pub fn name(self) -> &'static str
        ensures { result.now ≡ method_name self }
    {
        match self {
            Method::AddTorrent => "aria2.addTorrent",
            Method::AddUri => "aria2.addUri",
            Method::Bare(method) => method.name(),
            Method::ChangeGlobalOption => "aria2.changeGlobalOption",
            Method::ChangeOption => "aria2.changeOption",
            Method::ChangePosition => "aria2.changePosition",
            Method::Keyed(method) => method.name(),
            Method::ListMethods => "system.listMethods",
            Method::TellActive => "aria2.tellActive",
            Method::TellStatus => "aria2.tellStatus",
            Method::Window(method) => method.name(),
        }
    }

    /// The method of this name.
    pub fn named(name: &str) -> Option<Method>
        ensures { result ≡ method_named name.now }
    {
        METHODS.iter().copied().find(|method| method.name() == name)
    }
}
