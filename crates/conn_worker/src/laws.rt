// Laws. They do nothing when they run.
ghost use Rattle.conn_worker.specs.Allowed.{LinksReceiveWhatIsAllowed};
ghost use Rattle.conn_worker.specs.Brought.{LinksGoOn, TurnsBringWhatCame};
ghost use Rattle.conn_worker.specs.Sound.{AnswersAreSound};
ghost use Rattle.std.specs.Prelude.{◌≡◌, ◌^◌};
ghost use Rattle.conn_worker.specs.declared.ends.TheConstants.{IDLE_PAUSE};
ghost use Rattle.conn_worker.specs.declared.parts.TheConstants.{LEAST_PART, QUICK_STEP, SLOW_STEP};
ghost use Rattle.conn_worker.specs.declared.working.TheConstants.{MAX_TURNS};

/// Blocks that a run grants are blocks of a plan, and an allowance is of a byte at least.
pub fn answers_are_sound()
    ensures { AnswersAreSound }
{}

/// The link of a worker is used for the claims that were granted to it, one after another, and for nothing else. For a claim
/// of blocks it receives no more bytes, heads and all, than the grant and the answers to `More` allowed.
pub fn links_receive_what_is_allowed()
    ensures { LinksReceiveWhatIsAllowed }
{}

/// A worker asks for work under its own number, and each other turn is of what was granted to it last: the blocks, the loss, the
/// length or the digest that it brings are what came over its link since then, and more bytes are asked for of these blocks alone.
/// Its link goes on all the while, also from where a loss or a length was told.
pub fn turns_bring_what_came()
    ensures brought { TurnsBringWhatCame }
    ensures links { LinksGoOn }
{}

/// The most turns of a worker over one link, the milliseconds that one without work waits, the bytes of the least step of a
/// fetch, and the milliseconds by which a step is quick or slow. It does nothing when it runs.
pub fn limits_are_told()
    ensures turns { MAX_TURNS ≡ 2 ^ 48 }
    ensures pause { IDLE_PAUSE ≡ 50 }
    ensures part { LEAST_PART ≡ 20480 }
    ensures quick { QUICK_STEP ≡ 250 }
    ensures slow { SLOW_STEP ≡ 1000 }
{}
