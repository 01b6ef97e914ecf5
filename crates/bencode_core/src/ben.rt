// A bencoded value.
ghost use Rattle.std.specs.Prelude.{◌≡◌, ◌+◌, length, All, IfSome, option_map};
ghost use Rattle.std.specs.Option.{option_copied};

use crate::search::value_of_key;
use std::marker::Model;

/// What a bencoded value is.
#[derive(Clone, Copy, Debug, PartialEq, Eq)]
pub enum BenKind {
    Integer,
    String,
    List,
    Dict,
}

/// A bencoded value (BEP 3), and where it stood in the bytes that it was read from.
#[cycle(ben)]
#[derive(Debug, Drop)]
pub struct Ben {
    pub(crate) start: u32,
    pub(crate) end: u32,
    pub(crate) node: Node,
}

/// A key of a dictionary with its value.
#[cycle(ben)]
#[derive(Debug, Drop)]
pub struct Member {
    pub key: Vec<u8>,
    pub value: Ben,
}

#[cycle(ben)]
#[derive(Debug, Drop)]
pub(crate) enum Node {
    Integer(i64),
    String(Vec<u8>),
    List(Vec<Ben>),
    Dict(Vec<Member>),
}

impl Model for Ben {
    ghost use Rattle.bencode_core.specs.Placed.{Placed};
    ghost use Rattle.bencode_core.specs.Code.{placed_code};

    ghost Value = { Placed };

    ghost coded = { placed_code };

    ghost use Rattle.bencode_core.specs.Value.{depth};
    ghost use Rattle.bencode_core.specs.Node.{value_of, IsBen};

    ghost view = { λ b. record { place = b.start; value = value_of b.node } };

    ghost invariant = { λ b. IsBen b.start b.end b.node };

    ghost size = { λ p. depth p.value };

    ghost use Rattle.bencode_core.specs.Falls.{node_falls};

    ghost size_decreases = { λ b h. node_falls b.node };
}

impl Ben {
    ghost use Rattle.bencode_core.specs.Value.{spelling};
    ghost use Rattle.bencode_core.specs.Placed.{items_of, members_of, member_of, integer_of, string_of, kind_of, StandsIn};
    ghost use Rattle.bencode_core.specs.Node.{pairs_of};

    /// How many bytes spell it.
    pub(crate) fn spelled_len(&self) -> u32
        ensures { result ≡ length (spelling self.now.value) }
    {
        self.end - self.start
    }

    /// From which place to which it stood, the second one not included.
    pub fn span(&self) -> (u32, u32)
        ensures { result ≡ (self.now.place, self.now.place + length (spelling self.now.value)) }
    {
        (self.start, self.end)
    }

    pub fn kind(&self) -> BenKind
        ensures { result ≡ kind_of self.now.value }
    {
        match &self.node {
            Node::Integer(_) => BenKind::Integer,
            Node::String(_) => BenKind::String,
            Node::List(_) => BenKind::List,
            Node::Dict(_) => BenKind::Dict,
        }
    }

    /// The number, if it is one.
    pub fn integer(&self) -> Option<i64>
        ensures { result ≡ integer_of self.now.value }
    {
        match &self.node {
            Node::Integer(number) => Some(*number),
            _ => None,
        }
    }

    /// The bytes of a string.
    pub fn string(&self) -> Option<&[u8]>
        ensures { option_map (λ bytes. bytes.now) result ≡ string_of self.now.value }
    {
        match &self.node {
            Node::String(bytes) => Some(bytes.as_slice()),
            _ => None,
        }
    }

    /// The values of a list, in their order; none of another kind.
    pub fn items(&self) -> &[Ben]
        ensures items { result.now ≡ items_of self.now }
        ensures slices { All (StandsIn self.now) result.now }
    {
        match &self.node {
            Node::List(items) => items.as_slice(),
            _ => &[],
        }
    }

    /// The members of a dictionary, in their order; none of another kind.
    pub fn members(&self) -> &[Member]
        ensures members { pairs_of result.now ≡ members_of self.now }
        ensures slices { All (λ member. StandsIn self.now member.value) result.now }
    {
        match &self.node {
            Node::Dict(members) => members.as_slice(),
            _ => &[],
        }
    }

    /// The value of this key in a dictionary.
    pub fn member(&self, key: &[u8]) -> Option<&Ben>
        ensures member { option_copied result ≡ member_of key.now self.now }
        ensures slice { IfSome result (λ value. StandsIn self.now value.now) }
    {
        match &self.node {
            Node::Dict(members) => value_of_key(members.as_slice(), key),
            _ => None,
        }
    }
}
