// What is kept of a download of a run.
use dl_kinds::Gid;
use one_download::OneDownload;
use option_set::Options;

/// What is kept of a download, from its adding on.
#[derive(Drop)]
pub(crate) struct Entry {
    pub(crate) gid: Gid,
    // The place of the call in the journal by which it was added.
    pub(crate) called: usize,
    // Its options as they are now.
    pub(crate) options: Options,
    // The number of each mirror's host.
    pub(crate) hosts: Vec<u16>,
    pub(crate) state: OneDownload,
}
