// The limits of payloads.
ghost use Rattle.std.specs.Prelude.{◌≡◌, ◌-◌, ◌^◌, ◌≤◌, min, OnOk};
ghost use Rattle.dl_kinds.specs.Answers.{Gives};
ghost use Rattle.dl_kinds.specs.declared.plan.TheConstants.{MAX_PIECES};
ghost use Rattle.dl_kinds.specs.Plan.{pieces_of};
ghost use Rattle.meta_v2.specs.Refusals.{refusal_of};
ghost use Rattle.meta_v2.specs.Rules as specs;

use crate::V2Err;
use crate::entries::TreeEntry;
use dl_kinds::{MAX_PAYLOAD_LEN, MAX_PIECES};

/// The pieces of a file: none of an empty one.
pub(crate) fn pieces_of(len: u64, piece_len: u32) -> u64
    requires { 1 ≤ piece_len }
    ensures { result ≡ pieces_of len piece_len }
{
    len.div_ceil(piece_len as u64)
}

// A sum beyond 64 bits counts as the last number of 64 bits.
fn total_pieces(piece_len: u32, entries: &[TreeEntry]) -> u64
    requires { 1 ≤ piece_len }
    ensures { result ≡ min (specs.entry_pieces piece_len entries.now) (2 ^ 64 - 1) }
{
    let mut total: u64 = 0;
    for entry in entries {
        total = total.saturating_add(pieces_of(entry.len, piece_len));
    }
    total
}

fn total_bytes(entries: &[TreeEntry]) -> u64
    ensures { result ≡ min (specs.entry_bytes entries.now) (2 ^ 64 - 1) }
{
    let mut total: u64 = 0;
    for entry in entries {
        total = total.saturating_add(entry.len);
    }
    total
}

/// The pieces and the bytes are no more than a payload may have.
#[tactic(auto, unfolding(crate::specs::Rules::limits_fit), using(crate::proofs::Totals::fit, crate::proofs::Totals::too_many, crate::proofs::Totals::too_long))]
pub(crate) fn check_limits(piece_len: u32, entries: &[TreeEntry]) -> Result<(), V2Err>
    requires { 1 ≤ piece_len }
    ensures exact { Gives (λ _. tt) refusal_of result (specs.limits_fit piece_len entries.now) }
    ensures few { OnOk result (specs.entry_pieces piece_len entries.now ≤ MAX_PIECES) }
{
    if total_pieces(piece_len, entries) > MAX_PIECES || total_bytes(entries) > MAX_PAYLOAD_LEN {
        return Err(V2Err::TooLarge);
    }
    Ok(())
}
