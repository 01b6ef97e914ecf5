// What comes by streams that gave the answers of mirrors in memory.
ghost use Rattle.memory_serving_laws.specs.Alike.{AnswersKeepMirrors, LeadsAlike, LeadsAmongAlike, LeadsToSizeAlike};
ghost use Rattle.memory_serving_laws.specs.Charges.{BadAnswersPay, OneIsNeverBoth};
ghost use Rattle.memory_serving_laws.specs.Leads.{LeadsOnce, VisibleLocationsLead};
ghost use Rattle.memory_serving_laws.specs.Sizes.{BadAnswersPayProbes, ServedSizeIsTold};
ghost use Rattle.memory_serving_laws.specs.Laws.{ServedComes, CleanMirrorsUseNone, GoodMirrorsStay, GoodMirrorsServe};

use memory_reply_laws::{bad_replies_are_read, replies_are_read, requests_are_answered};
use part_fetches::fetched_bytes_fit_their_parts;
use reply_reader::{
    answers_fill_what_is_asked, final_heads_are_one_and_stay, streams_have_one_answer,
};

/// Each byte that differs from what the mirrors have, and each loss, used a bad answer of its own.
pub fn bad_answers_pay()
    ensures { BadAnswersPay }
{
    answers_fill_what_is_asked();
    fetched_bytes_fit_their_parts();
    bad_replies_are_read();
    final_heads_are_one_and_stay();
    replies_are_read();
    requests_are_answered();
    streams_have_one_answer();
}

/// What is served comes, or a bad answer of the mirrors that its URLs lead through was used. One such answer makes one
/// byte differ at most, or the rest is lost, and never both.
pub fn served_comes()
    ensures comes { ServedComes }
    ensures one { OneIsNeverBoth }
{
    bad_answers_pay();
}

/// What a probe tells is the length of what is served, or a bad answer of the mirrors that its URL leads through was used.
pub fn served_sizes_are_told()
    ensures pay { BadAnswersPayProbes }
    ensures told { ServedSizeIsTold }
{
    answers_fill_what_is_asked();
    bad_replies_are_read();
    final_heads_are_one_and_stay();
    replies_are_read();
    requests_are_answered();
    streams_have_one_answer();
}

/// Mirrors without bad answers use none, and stay as they are.
pub fn clean_mirrors_stay()
    ensures none_used { CleanMirrorsUseNone }
    ensures stay { GoodMirrorsStay }
{}

/// Mirrors without bad answers serve what they have.
pub fn good_mirrors_serve()
    ensures { GoodMirrorsServe }
{
    served_comes();
    clean_mirrors_stay();
}

/// A URL leads to one resource at most, over any number of redirects, and over each location of visible characters.
pub fn urls_lead_once()
    ensures once { LeadsOnce }
    ensures visible { VisibleLocationsLead }
{
    final_heads_are_one_and_stay();
    replies_are_read();
}

/// Mirrors keep what they hold, and where they hold the same, URLs lead to the same.
pub fn mirrors_hold_alike()
    ensures kept { AnswersKeepMirrors }
    ensures leads { LeadsAlike }
    ensures sizes { LeadsToSizeAlike }
    ensures among { LeadsAmongAlike }
{}
