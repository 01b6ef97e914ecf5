// What streams tell of the parts that were asked for.
ghost use Rattle.std.specs.Prelude.{◌≡◌};
ghost use Rattle.request_chain.specs.Bounds.{ProbesReceiveLittle, RequestsReceiveLittle};
ghost use Rattle.request_chain.specs.Fetched.{FetchedIsOne};
ghost use Rattle.request_chain.specs.KeptAnswers.{AnsweredAreFew, DialKeepsAnswers, HangUpKeepsAnswers, SendKeepsAnswers, OtherReplyKeepsAnswers, DataDialKeepsAnswers, DataKeepsAnswers, MoreDataKeepsAnswers};
ghost use Rattle.request_chain.specs.declared.course.TheConstants.{REDIRECT_LIMIT};

use link_source::requests_are_read_once;
use reply_reader::{
    answers_fill_what_is_asked, final_heads_are_one_and_stay, replies_are_read_short,
    streams_have_one_answer,
};

/// The same streams determine one result of the parts that were asked for.
pub fn fetched_is_one()
    ensures { FetchedIsOne }
{
    streams_have_one_answer();
}

/// For one request with its redirects a link gives no more than its replies may have up to the last byte that was asked
/// for, and one buffer.
pub fn requests_receive_little()
    ensures requests { RequestsReceiveLittle }
    ensures probes { ProbesReceiveLittle }
{
    answers_fill_what_is_asked();
    final_heads_are_one_and_stay();
    replies_are_read_short();
    requests_are_read_once();
}

/// Calls of a link behind which each of its exchanges had one answer still, also where they aren't requests of HTTP.
pub fn links_keep_answers()
    ensures dial { DialKeepsAnswers }
    ensures hang_up { HangUpKeepsAnswers }
    ensures send { SendKeepsAnswers }
    ensures other_reply { OtherReplyKeepsAnswers }
    ensures data_dial { DataDialKeepsAnswers }
    ensures first_data { DataKeepsAnswers }
    ensures more_data { MoreDataKeepsAnswers }
    ensures few { AnsweredAreFew }
{
    replies_are_read_short();
}

/// How often a resource may have been moved. It does nothing when it runs.
pub fn limits_are_told()
    ensures { REDIRECT_LIMIT ≡ 20 }
{}
