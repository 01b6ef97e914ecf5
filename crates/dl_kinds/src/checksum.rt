// Digests that a payload is to have, in texts.
ghost use Rattle.std.specs.Prelude.{false, ◌≡◌, ◌≢◌, ◌↔◌, ◌≤◌, ◌++◌, IsTrue, IsSome, IfSome, MatchOption, List, ℕ, length, take};
ghost use Rattle.hex.specs.Hex.{decode_of};
ghost use Rattle.dl_kinds.specs.Checksum.{SpellsDigest, IsChecksum, prefix_of, digest_len_of};

use std::marker::Model;

/// The most bytes of a digest.
const MAX_DIGEST: usize = 64;

/// The hash functions that a checksum may name (FIPS 180-4).
#[derive(Clone, Copy, Debug, PartialEq, Eq)]
pub enum HashType {
    Sha1,
    Sha224,
    Sha256,
    Sha384,
    Sha512,
}

impl HashType {
    const ALL: [HashType; 5] = [
        HashType::Sha1,
        HashType::Sha224,
        HashType::Sha256,
        HashType::Sha384,
        HashType::Sha512,
    ];

    // The name, and the sign behind it.
    fn prefix(self) -> &'static [u8]
        ensures { result.now ≡ prefix_of self }
    {
        match self {
            HashType::Sha1 => b"sha-1=",
            HashType::Sha224 => b"sha-224=",
            HashType::Sha256 => b"sha-256=",
            HashType::Sha384 => b"sha-384=",
            HashType::Sha512 => b"sha-512=",
        }
    }

    /// The bytes of its digests.
    pub fn digest_len(self) -> usize
        ensures value { result ≡ digest_len_of self }
        ensures bound { result ≤ 64 }
    {
        match self {
            HashType::Sha1 => 20,
            HashType::Sha224 => 28,
            HashType::Sha256 => 32,
            HashType::Sha384 => 48,
            HashType::Sha512 => 64,
        }
    }
}

// What stands behind a prefix.
fn behind<'a>(text: &'a [u8], prefix: &[u8]) -> Option<&'a [u8]>
    ensures { MatchOption result
        ((rest : List ℕ) → text.now ≢ prefix.now ++ rest)
        (λ rest. text.now ≡ prefix.now ++ rest.now) }
{
    text.strip_prefix(prefix)
}

// The hash function whose name stands in front, and what stands behind it.
fn split(text: &[u8]) -> Option<(HashType, &[u8])>
    ensures { MatchOption result
        ((hash : HashType) → (digits : List ℕ) → text.now ≢ prefix_of hash ++ digits)
        (λ found. text.now ≡ prefix_of found.0 ++ found.1.now) }
{
    for hash in HashType::ALL {
        if let Some(digits) = behind(text, hash.prefix()) {
            return Some((hash, digits));
        }
    }
    None
}

// Writes the bytes that the digits spell, where they fill the room.
fn decode(digits: &[u8], room: &mut [u8]) -> bool
    ensures written { IsTrue result → decode_of digits.now ≡ Ok room.new }
    ensures refused { result ≡ false → (digest : List ℕ) → decode_of digits.now ≡ Ok digest
        → length digest ≢ length room.old }
{
    hex::decode_to_slice(digits, room).is_ok()
}

/// A digest that a payload is to have.
#[derive(Debug, Drop)]
pub struct Checksum {
    hash: HashType,
    // Its first bytes, as many as the digests of the hash function have.
    digest: [u8; MAX_DIGEST],
}

impl Model for Checksum {
    ghost use Rattle.dl_kinds.specs.ChecksumView.{ChecksumView};

    ghost Value = { ChecksumView };

    ghost use Rattle.std.specs.Prelude.{take};
    ghost use Rattle.hex.specs.Hex.{decode_of};
    ghost use Rattle.dl_kinds.specs.Checksum.{digest_len_of};

    ghost view = { λ c. record { hash = c.hash; digest = take (digest_len_of c.hash) c.digest } };
}

impl Checksum {
    /// The checksum that `sha-1=`, `sha-224=`, `sha-256=`, `sha-384=` or `sha-512=` and the hexadecimal digits of a
    /// digest write, in either case. None is for any other text.
    pub fn read(text: &str) -> Option<Checksum>
        ensures found { IsSome result ↔ IsChecksum text.now }
        ensures value { IfSome result (λ sum. SpellsDigest sum.hash sum.digest text.now) }
    {
        let (hash, digits) = split(text.as_bytes())?;
        let mut digest = [0; MAX_DIGEST];
        if !decode(digits, &mut digest[..hash.digest_len()]) {
            return None;
        }
        Some(Checksum { hash, digest })
    }

    /// Another of the same value. It takes no memory.
    pub fn copy(&self) -> Checksum
        ensures { result ≡ self.now }
    {
        Checksum {
            hash: self.hash,
            digest: self.digest,
        }
    }

    pub fn hash(&self) -> HashType
        ensures { result ≡ self.now.hash }
    {
        self.hash
    }

    pub fn digest(&self) -> &[u8]
        ensures { result.now ≡ self.now.digest }
    {
        &self.digest[..self.hash.digest_len()]
    }
}
