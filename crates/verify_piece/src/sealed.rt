// The bytes of a piece with their digest.
ghost use Rattle.std.specs.Prelude.{◌≡◌};
ghost use Rattle.sha1.specs.Sha1.{sha1};

use dl_kinds::Blob;
use sha1::Sha1;
use std::marker::Model;

/// The bytes of a piece with their SHA-1 digest, which BEP 3 lists for each piece.
#[derive(Debug, Drop)]
pub struct Sealed {
    piece: u32,
    bytes: Blob,
    digest: [u8; 20],
}

impl Model for Sealed {
    ghost use Rattle.std.specs.Prelude.{◌≡◌};
    ghost use Rattle.sha1.specs.Sha1.{sha1};
    ghost use Rattle.verify_piece.specs.Seals.{PieceBytes};

    ghost Value = { PieceBytes };

    ghost view = { λ s. record { piece = s.piece; bytes = s.bytes } };

    ghost invariant = { λ s. s.digest ≡ sha1 s.bytes };
}

impl Sealed {
    pub fn of(piece: u32, bytes: Blob) -> Sealed
        ensures { result ≡ record { piece = piece; bytes = bytes } }
    {
        let digest = Sha1::digest(bytes.bytes());
        Sealed {
            piece,
            bytes,
            digest,
        }
    }

    /// The number of the piece.
    pub fn piece(&self) -> u32
        ensures { result ≡ self.now.piece }
    {
        self.piece
    }

    pub fn bytes(&self) -> &[u8]
        ensures { result.now ≡ self.now.bytes }
    {
        self.bytes.bytes()
    }

    /// The SHA-1 digest of the bytes.
    pub fn digest(&self) -> &[u8; 20]
        ensures { result.now ≡ sha1 self.now.bytes }
    {
        &self.digest
    }

    pub fn into_bytes(self) -> Blob
        ensures { result ≡ self.bytes }
    {
        let Sealed { bytes, .. } = self;
        bytes
    }
}
