// The calls that added the downloads.
ghost use Rattle.std.specs.Prelude.{◌≡◌, ◌<◌, Some, length, slice_get};
ghost use Rattle.machine_core.specs.DownloadWants.{IsLawfulEvent};
ghost use Rattle.machine_core.specs.MachineParts.{subject_of_event};
ghost use Rattle.machine_core.specs.Reads.{downloads_in};
ghost use Rattle.machine_core.specs.Starts.{Download};

use crate::{Event, Machine};

impl Machine {
    /// The event by which the download at a place was added.
    pub(crate) fn adding_event(&self, place: usize) -> &Event
        requires { place < length (downloads_in self.now) }
        ensures lawful { IsLawfulEvent result.now }
        ensures added { (download : Download) → slice_get (downloads_in self.now) place ≡ Some download
            → subject_of_event result.now ≡ Some download.subject }
    {
        let entry = &self.entries[place];
        // The number of events says that the place of one is a u32.
        let _ = self.journal.len();
        self.journal.get(entry.called as u32).unwrap()
    }
}
