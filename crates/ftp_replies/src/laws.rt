// Laws of the reply at the front of a stream.
ghost use Rattle.std.specs.Prelude.{◌≡◌, ◌^◌};
ghost use Rattle.ftp_replies.specs.ReplyLaws.{HasOneReply, ReplyStays, NoReplyStays, FrontOfReplyIsDue, ReplyComesWhole, ReplyIsShort, HasOneSize, HasOnePort};
ghost use Rattle.ftp_replies.specs.declared.limits.TheConstants.{MAX_LINE_BYTES, MAX_REPLY_LINES, SIZE_LIMIT};

/// Laws of the reply at the front of a stream, as far as the stream has come: it is one reply, it stands once its last
/// byte has come and is due before that, and what is no reply stays none. A reply has at most 32,768 bytes.
pub fn replies_are_one_and_stay()
    ensures one { HasOneReply }
    ensures stays { ReplyStays }
    ensures none_stays { NoReplyStays }
    ensures front { FrontOfReplyIsDue }
    ensures whole { ReplyComesWhole }
    ensures short { ReplyIsShort }
{}

/// A line tells one size and one port at most. It does nothing when it runs.
pub fn lines_tell_one_thing()
    ensures size { HasOneSize }
    ensures port { HasOnePort }
{}

/// How much a reply may have, and which sizes it may tell. It does nothing when it runs.
pub fn limits_are_told()
    ensures line { MAX_LINE_BYTES ≡ 512 }
    ensures lines { MAX_REPLY_LINES ≡ 64 }
    ensures size { SIZE_LIMIT ≡ 2 ^ 63 }
{}
