// The look-up of a key.
ghost use Rattle.std.specs.Prelude.{◌≡◌, None, option_map, find};
ghost use Rattle.std.specs.Option.{option_copied};
ghost use Rattle.std.specs.Str.{bytes_eq};
ghost use Rattle.bencode_core.specs.Value.{AreMembers};
ghost use Rattle.bencode_core.specs.Node.{members_in, pairs_of};

use crate::ben::{Ben, Member};

/// The value of the key, among members whose keys ascend.
pub(crate) fn value_of_key<'a>(members: &'a [Member], key: &[u8]) -> Option<&'a Ben>
    requires { AreMembers None (members_in members.now) }
    ensures { option_copied result
        ≡ option_map (λ m. m.1) (find (λ m. bytes_eq m.0 key.now) (pairs_of members.now)) }
{
    match members.binary_search_by(|member| member.key.as_slice().cmp(key)) {
        Ok(place) => Some(&members[place].value),
        Err(_) => None,
    }
}
