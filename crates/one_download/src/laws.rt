// What is kept of a download, by its events.
ghost use Rattle.one_download.specs.DownloadLaws.{AccountsTellOpening, MarksAreCounted, NewNumbersMayBeGranted};

use mirror_blame::counting_is_stable;

/// The steps of a download give what its events say: the marks that count, the numbers that claims may have, and
/// whether it is opened. It does nothing when it runs.
pub fn steps_match_events()
    ensures marks { MarksAreCounted }
    ensures numbers { NewNumbersMayBeGranted }
    ensures opened { AccountsTellOpening }
{
    counting_is_stable();
}
