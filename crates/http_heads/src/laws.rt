// Laws of the head at the front of a stream, and of what a client sends.
ghost use Rattle.std.specs.Prelude.{◌≡◌};
ghost use Rattle.http_heads.specs.AskHeadLaws.{HasOneAskHead, AskHeadStays, NoAskHeadStays, AskHeadIsFinished, FrontOfAskIsUnfinished, AskHeadStoodBefore, AskHeadComesWhole};
ghost use Rattle.http_heads.specs.HeadLaws.{HasOneHead, HeadStays, NoHeadStays, HeadIsFinished, FrontIsUnfinished, HeadStoodBefore, HeadComesWhole};
ghost use Rattle.http_heads.specs.declared.limits.TheConstants.{MAX_HEAD_BYTES, MAX_HEAD_FIELDS};

/// Laws of the head at the front of what a client sends, as far as it has come: it is one head, it stands once its last
/// byte has come, and what the front tells, each longer front tells too.
pub fn ask_heads_are_one_and_stay()
    ensures one { HasOneAskHead }
    ensures stays { AskHeadStays }
    ensures none_stays { NoAskHeadStays }
    ensures finished { AskHeadIsFinished }
    ensures front { FrontOfAskIsUnfinished }
    ensures stood { AskHeadStoodBefore }
    ensures whole { AskHeadComesWhole }
{}

/// Laws of the head at the front of a stream, as far as the stream has come: it is one head, it stands once its last
/// byte has come, and what the front of the stream tells, each longer front tells too.
pub fn heads_are_one_and_stay()
    ensures one { HasOneHead }
    ensures stays { HeadStays }
    ensures none_stays { NoHeadStays }
    ensures finished { HeadIsFinished }
    ensures front { FrontIsUnfinished }
    ensures stood { HeadStoodBefore }
    ensures whole { HeadComesWhole }
{}

/// How much a head may have. It does nothing when it runs.
pub fn limits_are_told()
    ensures bytes { MAX_HEAD_BYTES ≡ 65536 }
    ensures fields { MAX_HEAD_FIELDS ≡ 64 }
{}
