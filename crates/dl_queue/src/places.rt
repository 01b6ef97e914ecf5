// The place to which a download is moved.
ghost use Rattle.std.specs.Prelude.{◌≡◌, ◌≤◌, ◌<◌, ◌^◌};
ghost use Rattle.dl_queue.specs.Calls.{clamped, base_of};

use crate::How;

/// The place so far from the base that `how` names, and neither before the first place nor behind the last.
pub fn target(place: usize, last: usize, position: i64, how: How) -> usize
    requires { last < 2 ^ 32 }
    ensures value { result ≡ clamped (base_of how place last) position last }
    ensures bound { result ≤ last }
{
    let base = match how {
        How::Set => 0,
        How::Cur => place,
        How::End => last,
    };
    let distance = position.unsigned_abs() as usize;
    if position < 0 {
        base.saturating_sub(distance).min(last)
    } else {
        base.saturating_add(distance).min(last)
    }
}
