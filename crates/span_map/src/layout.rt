// Layouts, and the parts of their files that a slice of the payload is.
ghost use Rattle.std.specs.Prelude.{◌≡◌, ◌≢◌, ◌≤◌, ◌<◌, ◌+◌, ◌-◌, ◌^◌, ◌⊎◌, min, length, IfOk, OnOk, IfErr, All, sum_by};
ghost use Rattle.std.specs.Option.{option_to_list};
ghost use Rattle.dl_kinds.specs.declared.plan.TheConstants.{MAX_PAYLOAD_LEN};
ghost use Rattle.span_map.specs.declared.files.LayoutErr.{LayoutErr};
ghost use Rattle.span_map.specs.declared.files.LayoutErr.TheVariants.{NoMemory};
ghost use Rattle.span_map.specs.Layout.{total_of, IsLayout, IsRefused, AreStarts};
ghost use Rattle.span_map.specs.Slices.{part_of, slice_of, IsPart};

use crate::paths::check_paths;
use crate::{FileLen, LayoutErr, Part};
use dl_kinds::MAX_PAYLOAD_LEN;
use std::alloc::{AllocError, Global};
use std::marker::Model;

/// The most files of a layout, since a part has a number of 32 bits for its file.
const MAX_FILES: usize = 4_294_967_295;

// A sum beyond 64 bits counts as the last number of 64 bits.
fn total_len(files: &[FileLen]) -> u64
    ensures { result ≡ min (total_of files.now) (2 ^ 64 - 1) }
{
    let mut total: u64 = 0;
    for file in files {
        total = total.saturating_add(file.len);
    }
    total
}

fn starts_of(alloc: Global, files: &[FileLen]) -> Result<Vec<u64>, AllocError>
    requires { total_of files.now < 2 ^ 64 }
    ensures { IfOk result (λ starts. AreStarts files.now starts.items) }
{
    let mut starts = Vec::with_capacity(alloc, files.len())?;
    let mut start = 0;
    for file in files {
        starts.push(start)?;
        start += file.len;
    }
    Ok(starts)
}

// What a file that begins at `start` has of the bytes from `low` to before `high`.
fn shared(file: u32, start: u64, len: u64, low: u64, high: u64) -> Option<Part>
    requires { start + len < 2 ^ 64 }
    ensures { option_to_list result ≡ part_of file start len low high }
{
    let first = start.max(low);
    let end = (start + len).min(high);
    if first < end {
        Some(Part {
            file,
            at: first - start,
            len: end - first,
        })
    } else {
        None
    }
}

fn copies(alloc: Global, files: &[FileLen]) -> Result<Vec<FileLen>, AllocError>
    ensures { IfOk result (λ copies. copies.items ≡ files.now) }
{
    let mut copies = Vec::with_capacity(alloc, files.len())?;
    for file in files {
        copies.push(FileLen {
            path: file.path.copy(alloc)?,
            len: file.len,
        })?;
    }
    Ok(copies)
}

/// The files of a payload, which is their bytes, one file after the other.
#[derive(Debug, Drop)]
pub struct Layout {
    files: Vec<FileLen>,
    // Where each file begins in the payload.
    starts: Vec<u64>,
    total: u64,
}

impl Model for Layout {
    ghost use Rattle.std.specs.Prelude.{List};
    ghost use Rattle.span_map.specs.declared.files.FileLen.{FileLen};
    ghost use Rattle.span_map.specs.Layout.{KeepsLayout};

    ghost Value = { List FileLen };

    ghost view = { λ l. l.files.items };

    ghost invariant = { λ l. KeepsLayout l.files.items l.starts.items l.total };
}

impl Layout {
    /// The layout of these files, in this order. Refused are, in this order: no file; the first file whose path is
    /// bad (no part, more than 64 parts, or a part that `is_valid_part` refuses), or is that of an earlier file, a
    /// folder on the way to one, or has one for a folder; files of more than `MAX_PAYLOAD_LEN` bytes together. Room
    /// for more than 4,294,967,295 files is never there.
    pub fn new(alloc: Global, files: Vec<FileLen>) -> Result<Layout, LayoutErr>
        ensures layout { IfOk result (λ layout. layout ≡ files.items) }
        ensures ok { OnOk result (IsLayout files.items) }
        ensures refused { IfErr result (λ fault. fault ≢ NoMemory → IsRefused files.items fault) }
        ensures exactly { (fault : LayoutErr) → IsRefused files.items fault
            → (result ≡ Err fault) ⊎ (result ≡ Err NoMemory) }
    {
        if files.is_empty() {
            return Err(LayoutErr::Empty);
        }
        if files.len() > MAX_FILES {
            return Err(LayoutErr::NoMemory);
        }
        check_paths(alloc, &files)?;
        let total = total_len(&files);
        if total > MAX_PAYLOAD_LEN {
            return Err(LayoutErr::TooLong);
        }
        let starts = starts_of(alloc, &files)?;
        Ok(Layout {
            files,
            starts,
            total,
        })
    }

    /// The files, in order.
    pub fn files(&self) -> &[FileLen]
        ensures value { result.now ≡ self.now }
        ensures layout { IsLayout self.now }
        ensures few { length self.now < 2 ^ 32 }
    {
        &self.files
    }

    /// The length of the payload.
    pub fn total(&self) -> u64
        ensures value { result ≡ total_of self.now }
        ensures bound { result ≤ MAX_PAYLOAD_LEN }
    {
        self.total
    }

    /// The parts of the files that the `len` bytes at `at` of the payload are, in order. None of them is empty.
    pub fn parts(&self, alloc: Global, at: u64, len: u64) -> Result<Vec<Part>, AllocError>
        requires { at + len ≤ total_of self.now }
        ensures parts { IfOk result (λ parts. parts.items ≡ slice_of self.now at len) }
        ensures each { IfOk result (λ parts. All (IsPart self.now) parts.items) }
        ensures len { IfOk result (λ parts. sum_by (λ part. part.len) parts.items ≡ len) }
    {
        let (files, starts) = (self.files.as_slice(), self.starts.as_slice());
        let end = at + len;
        let first = starts
            .partition_point(|start| *start <= at)
            .saturating_sub(1);
        let until = starts.partition_point(|start| *start < end);
        let mut parts = Vec::new(alloc);
        for number in first..until {
            let part = shared(number as u32, starts[number], files[number].len, at, end);
            if let Some(part) = part {
                parts.push(part)?;
            }
        }
        Ok(parts)
    }

    /// The same layout again.
    pub fn copy(&self, alloc: Global) -> Result<Self, AllocError>
        ensures { IfOk result (λ copy. copy ≡ self.now) }
    {
        Ok(Layout {
            files: copies(alloc, &self.files)?,
            starts: self.starts.to_vec(alloc)?,
            total: self.total,
        })
    }
}
