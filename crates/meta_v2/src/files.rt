// The files of a version 2 torrent.
ghost use Rattle.std.specs.Prelude.{◌≡◌, ◌==◌, ◌++◌, ◌∷◌, [], length, OnOk, OnErr};

use dl_kinds::Texts;
use merkle_trees::{Hashes, SHA256_LEN};
use std::alloc::{AllocError, Global};
use std::marker::Model;

/// A file of a payload.
#[derive(Debug, Drop)]
pub struct FileV2 {
    /// Its path, from the folder of the payload on, which the name of the torrent is.
    pub path: Texts,
    /// Its length in bytes.
    pub len: u64,
    /// The root over its leaves, which BEP 52 calls `pieces root`: 32 bytes of 0 for an empty file.
    pub root: [u8; SHA256_LEN],
    /// The hash of each piece.
    pub layer: Hashes,
}

/// A list of files.
#[derive(Debug, Drop)]
pub struct FilesV2 {
    files: Vec<FileV2>,
}

impl Model for FilesV2 {
    ghost use Rattle.std.specs.Prelude.{List};
    ghost use Rattle.meta_v2.specs.declared.files.FileV2.{FileV2};

    ghost Value = { List FileV2 };

    ghost view = { λ f. f.files.items };
}

impl FilesV2 {
    /// A list of none.
    pub fn new(alloc: Global) -> Self
        ensures { result ≡ [] }
    {
        FilesV2 {
            files: Vec::new(alloc),
        }
    }

    /// A list of these files.
    pub fn wrap(files: Vec<FileV2>) -> Self
        ensures { result ≡ files.items }
    {
        FilesV2 { files }
    }

    /// Adds a file at the end, in memory of the allocator that the list was made with.
    pub fn push(&mut self, file: FileV2) -> Result<(), AllocError>
        ensures ok { OnOk result (self.new ≡ self.old ++ file ∷ []) }
        ensures err { OnErr result (self.new ≡ self.old) }
    {
        self.files.push(file)?;
        Ok(())
    }

    pub fn len(&self) -> usize
        ensures { result ≡ length self.now }
    {
        self.files.len()
    }

    pub fn is_empty(&self) -> bool
        ensures { result ≡ (length self.now == 0) }
    {
        self.files.is_empty()
    }

    pub fn as_slice(&self) -> &[FileV2]
        ensures { result.now ≡ self.now }
    {
        &self.files
    }
}
