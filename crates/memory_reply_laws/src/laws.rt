// How the replies of mirrors in memory are read, and what they are given for.
ghost use Rattle.memory_reply_laws.specs.Answers.{RequestsAreAlike, RequestsAreAnswered, NoneIsNext};
ghost use Rattle.memory_reply_laws.specs.BadReplies.{FlippedIsTrue, BareIsNotFlipped, CutIsFront, StatusIsRead, OtherStatusIsNoHead, StatusIsReadOrNone, NothingIsUnfinished};
ghost use Rattle.memory_reply_laws.specs.Replies.{PartIsRead, ChunkedPartIsRead, WholeIsRead, StreamIsRead, MovedIsRead, NotFoundIsRead, EmptyIsRead, ToldContentIsPlain, FrontsAreRead, HeadFrontsAreRead};

use body_frames::{chunks_are_read, pieces_join};
use http_heads::heads_are_one_and_stay;
use range_http::numbers_and_ranges_are_read;

/// How each reply is read: by its head the verdict, and behind it the content.
pub fn replies_are_read()
    ensures part { PartIsRead }
    ensures chunked_part { ChunkedPartIsRead }
    ensures whole { WholeIsRead }
    ensures stream { StreamIsRead }
    ensures moved { MovedIsRead }
    ensures not_found { NotFoundIsRead }
    ensures empty { EmptyIsRead }
    ensures plain { ToldContentIsPlain }
{
    numbers_and_ranges_are_read();
    chunks_are_read();
}

/// What each front of a reply is read as.
pub fn fronts_are_read()
    ensures whole { FrontsAreRead }
    ensures head { HeadFrontsAreRead }
{
    heads_are_one_and_stay();
    pieces_join();
}

/// How the bad answers are read: what a turned byte and a cut body make of a reply, and how a status alone is read.
pub fn bad_replies_are_read()
    ensures flipped { FlippedIsTrue }
    ensures bare { BareIsNotFlipped }
    ensures cut { CutIsFront }
    ensures status { StatusIsRead }
    ensures other_status { OtherStatusIsNoHead }
    ensures any_status { StatusIsReadOrNone }
    ensures nothing { NothingIsUnfinished }
{
    heads_are_one_and_stay();
    numbers_and_ranges_are_read();
}

/// What is due after a request on a stream that had nothing more to give.
pub fn requests_are_answered()
    ensures alike { RequestsAreAlike }
    ensures answered { RequestsAreAnswered }
    ensures none_next { NoneIsNext }
{}
