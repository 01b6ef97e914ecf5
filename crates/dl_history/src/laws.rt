// What is kept of a download, over every legal history.
ghost use Rattle.dl_history.specs.AccountLaws.{AccountsMatchEvents, UnopenedAccountsAreAlike};
ghost use Rattle.dl_history.specs.HistoryLaws.{HistoriesAreSound};
ghost use Rattle.dl_history.specs.Worked.{WorkedHistories};

use dl_kinds::plan_laws;
use piece_table::kept_is_afresh;

/// In every legal history of a download, what is kept of it step by step is what its events say.
pub fn accounts_match_events()
    ensures { AccountsMatchEvents }
{
    plan_laws();
    kept_is_afresh();
}

/// Before its opening, what is kept of a download doesn't go by the lengths of its payload and pieces.
pub fn unopened_accounts_are_alike()
    ensures { UnopenedAccountsAreAlike }
{}

/// What the definitions say of the worked histories.
pub fn worked_histories_are_told()
    ensures { WorkedHistories }
{}

/// What holds in every legal history of a download: of its claims, its blocks, and its pieces.
pub fn histories_are_sound()
    ensures { HistoriesAreSound }
{
    plan_laws();
    kept_is_afresh();
}
