// Laws of names, spans, requests and replies.
ghost use Rattle.std.specs.Prelude.{◌≡◌, ◌^◌};
ghost use Rattle.origin_replies.specs.Askings.{AskingsEnd, AskingsEndWithLast, AskingsGoOn, AskingsTakeMore, HasOneAsking, HasOneListOfAskings};
ghost use Rattle.origin_replies.specs.Classified.{PartsAreClassified, PartsAreSent};
ghost use Rattle.origin_replies.specs.Names.{NamesLieBelow};
ghost use Rattle.origin_replies.specs.Spans.{SpansLieWithin};
ghost use Rattle.origin_replies.specs.declared.span.TheConstants.{END_LIMIT};

use http_heads::ask_heads_are_one_and_stay;
use range_http::numbers_and_ranges_are_read;

/// No target names what lies elsewhere than below the folder that is served. It does nothing when it runs.
pub fn names_lie_below()
    ensures { NamesLieBelow }
{}

/// A part lies within its file, and has a byte. It does nothing when it runs.
pub fn spans_lie_within()
    ensures { SpansLieWithin }
{}

/// The first number that is no end of a range. It does nothing when it runs.
pub fn limits_are_told()
    ensures { END_LIMIT ≡ 2 ^ 63 }
{}

/// Laws of the requests in the bytes of a connection. Bytes begin with one request at most, which stays whatever follows:
/// so they have one list of requests, which can be read from the front as the bytes come. It does nothing when it runs.
pub fn askings_are_one_and_stay()
    ensures one { HasOneAsking }
    ensures one_list { HasOneListOfAskings }
    ensures go_on { AskingsGoOn }
    ensures take_more { AskingsTakeMore }
    ensures end { AskingsEnd }
    ensures end_with_last { AskingsEndWithLast }
{
    ask_heads_are_one_and_stay();
}

/// A range within a file is answered by just that part, and its reply is read as such. It does nothing when it runs.
pub fn parts_are_classified()
    ensures sent { PartsAreSent }
    ensures classified { PartsAreClassified }
{
    numbers_and_ranges_are_read();
}
