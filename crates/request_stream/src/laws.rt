// Laws of the requests in the bytes of a connection.
ghost use Rattle.request_stream.specs.Progress.{ProgressStays};
ghost use Rattle.request_stream.specs.StreamLaws.{HasOneRequest, RequestStays, RequestIsWithin, HasOneListOfRequests, FrontGoesOn, FrontTakesMore, FrontEnds, FrontEndsWithLast};

use http_heads::ask_heads_are_one_and_stay;

/// Laws of the requests in the bytes of a connection. Bytes begin with one request at most, which stays whatever follows: so
/// they have one list of requests, which can be read from the front as the bytes come, each from where it was read before.
pub fn requests_are_one_and_stay()
    ensures one { HasOneRequest }
    ensures stays { RequestStays }
    ensures within { RequestIsWithin }
    ensures one_list { HasOneListOfRequests }
    ensures goes_on { FrontGoesOn }
    ensures takes_more { FrontTakesMore }
    ensures ends { FrontEnds }
    ensures ends_with_last { FrontEndsWithLast }
    ensures progress { ProgressStays }
{
    ask_heads_are_one_and_stay();
}
