// Pieces that are compared with their digests, on threads.
use dl_kinds::{Blob, Digests};
use std::alloc::Global;
use std::marker::Sync;
use std::thread::Threads;
use test_lines::{Output, after, before, set, spelled};
use verify_piece::check_all;

/// Pieces, and the digest that each is to have.
#[derive(Drop)]
pub struct Pieces {
    alloc: Global,
    pieces: Vec<Blob>,
    digests: Digests,
}

// The digest that digits write; another one where they write none.
fn digest_of(digits: &str) -> [u8; 20] {
    let mut digest = [0; 20];
    let _ = hex::decode_to_slice(digits, &mut digest);
    digest
}

impl Pieces {
    /// No pieces.
    pub fn new(alloc: Global) -> Pieces {
        Pieces {
            alloc,
            pieces: Vec::new(alloc),
            digests: Digests::new(alloc),
        }
    }

    /// Adds a piece, of which a line tells the digest and the bytes.
    pub fn add(&mut self, line: &str) {
        let _ = self.digests.push(digest_of(before(line, ' ')));
        let _ = self
            .pieces
            .push(Blob::wrap(spelled(self.alloc, after(line, ' '))));
    }

    fn add_all<R: Threads + Sync>(&self, rt: &R, output: &mut Output) {
        if self.pieces.len() != self.digests.len() {
            return;
        }
        if let Ok(all) = check_all(rt, self.alloc, &self.pieces, &self.digests) {
            for right in all {
                output.letter(if right { '+' } else { '-' });
            }
        }
    }

    /// Compares all pieces: `+` for each that has its digest, and `-` for each other. None are left.
    pub fn compare<R: Threads + Sync>(&mut self, rt: &R, output: &mut Output) {
        self.add_all(rt, output);
        let alloc = self.alloc;
        set(self, Pieces::new(alloc));
    }
}
