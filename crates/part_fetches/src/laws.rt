// Laws of parts that come one after the other.
ghost use Rattle.part_fetches.specs.Laws.{FetchedFits, FetchedIsOne, PartBegins, PartFits, PartIsCut, PartLeavesMore};

use ftp_fetches::{dialogues_are_one, fetched_bytes_fit_their_part};
use reply_reader::answers_fill_what_is_asked;

/// The same streams determine one result of the parts that were asked for.
pub fn fetched_is_one()
    ensures { FetchedIsOne }
{
    request_chain::fetched_is_one();
    dialogues_are_one();
}

/// How many bytes are fetched.
pub fn fetched_bytes_fit_their_parts()
    ensures fits { FetchedFits }
    ensures own { PartFits }
{
    answers_fill_what_is_asked();
    fetched_bytes_fit_their_part();
}

/// A part begins with nothing, and behind one that came whole the next one begins.
pub fn parts_follow()
    ensures begins { PartBegins }
    ensures leaves { PartLeavesMore }
    ensures cut { PartIsCut }
{}
