// Laws of the final head of a reply, and of what a reply gives of what was asked for.
ghost use Rattle.std.specs.Prelude.{◌≡◌};
ghost use Rattle.reply_reader.specs.HeadLaws.{HasOneFinalHead, FinalHeadIsNotDue, FinalHeadIsThere, DueHeadMayCome, FinalHeadStays, NoFinalHeadStays, FrontIsDue, FinalHeadIsWithin, FinalHeadStoodBefore};
ghost use Rattle.reply_reader.specs.Answers.{AnswersOnce, AnswersStay, AnswersGrow, AnswersFit};
ghost use Rattle.reply_reader.specs.Fills.{AnswersFill};
ghost use Rattle.reply_reader.specs.Sizes.{FinalHeadsAreShort, HeadsReadAreNotFinal, HeadsReadAreShort, NothingIsNoHead, DueSlicesAreShort};
ghost use Rattle.reply_reader.specs.Slices.{SliceGoesOn};
ghost use Rattle.reply_reader.specs.declared.heads.TheConstants.{INTERIM_LIMIT};
ghost use Rattle.reply_reader.specs.declared.slices.TheConstants.{MAX_PIECE_BYTES};

use body_frames::pieces_join;
use http_heads::heads_are_one_and_stay;
use range_http::numbers_and_ranges_are_read;

/// Laws of the final head of a reply, as far as its stream has come: a stream tells one thing, and what it tells stays.
pub fn final_heads_are_one_and_stay()
    ensures one { HasOneFinalHead }
    ensures not_due { FinalHeadIsNotDue }
    ensures there { FinalHeadIsThere }
    ensures may_come { DueHeadMayCome }
    ensures stays { FinalHeadStays }
    ensures none_stays { NoFinalHeadStays }
    ensures front { FrontIsDue }
    ensures within { FinalHeadIsWithin }
    ensures stood { FinalHeadStoodBefore }
{
    heads_are_one_and_stay();
}

/// Laws of what a stream answers, as far as it has come: it answers one thing, whose bytes stay, and no more than were
/// asked for come. What is told stays, whatever follows.
pub fn streams_have_one_answer()
    ensures once { AnswersOnce }
    ensures stay { AnswersStay }
    ensures grow { AnswersGrow }
    ensures fit { AnswersFit }
    ensures slice { SliceGoesOn }
{
    final_heads_are_one_and_stay();
    pieces_join();
    numbers_and_ranges_are_read();
}

/// A law of what a stream answers: how much it gives of what was asked for.
pub fn answers_fill_what_is_asked()
    ensures fill { AnswersFill }
{
    numbers_and_ranges_are_read();
}

/// How many bytes are read of a reply: of its heads, and of its content while more of it is due.
pub fn replies_are_read_short()
    ensures final_head { FinalHeadsAreShort }
    ensures heads { HeadsReadAreShort }
    ensures not_final { HeadsReadAreNotFinal }
    ensures nothing { NothingIsNoHead }
    ensures slices { DueSlicesAreShort }
{
    heads_are_one_and_stay();
}

/// How many interim heads a reply may have, and how long a piece of its stream may be. It does nothing when it runs.
pub fn limits_are_told()
    ensures interims { INTERIM_LIMIT ≡ 8 }
    ensures pieces { MAX_PIECE_BYTES ≡ 65536 }
{}
