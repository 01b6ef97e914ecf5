// What a call is answered.
use crate::{FileViews, Pairs, StatView, StatusView, StatusViews, UriViews};
use dl_kinds::Gid;
use dl_queue::QueueErr;

/// What a call is answered (aria2 manual, "RPC interface").
#[derive(Debug, Drop)]
pub enum Reply {
    /// `addUri` and `addTorrent`: the new download. `remove`, `pause` and `unpause`: the one that the key names.
    Gid(Gid),
    /// The call is carried out.
    Fine,
    Status(StatusView),
    Statuses(StatusViews),
    Files(FileViews),
    Uris(UriViews),
    Options(Pairs),
    /// `changePosition`: the place among the waiting downloads, from 0.
    Position(u32),
    Stat(StatView),
    Version,
    /// The call changes nothing.
    Refused(QueueErr),
}
