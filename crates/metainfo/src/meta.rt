// What a metainfo file says.
ghost use Rattle.std.specs.Prelude.{◌≡◌, ◌^◌, ◌<◌, ◌⊎◌, length, Ok, Err, IfOk, IsOkUnless};
ghost use Rattle.dl_kinds.specs.Answers.{Gives};
ghost use Rattle.span_map.specs.Layout.{total_of};

use crate::MetaErr;
use crate::reading::meta_of;
use crate::urls::url_of;
use dl_kinds::{Digests, NoMemory, Plan, Text, Texts};
use span_map::Layout;
use std::alloc::Global;

/// What a metainfo file says.
#[derive(Debug, Drop)]
pub struct Meta {
    /// The name of the payload's file, or of its folder.
    pub name: Text,
    pub layout: Layout,
    pub plan: Plan,
    /// One for each piece.
    pub digests: Digests,
    /// SHA-1 of the bytes that spell the value of `info`.
    pub info_hash: [u8; 20],
    /// The URLs of the web seeds that can be asked, in their order.
    pub seeds: Texts,
}

impl Meta {
    ghost use Rattle.metainfo.specs.Info.{Info, info_of, IsSound};
    ghost use Rattle.metainfo.specs.Refusals.{refusal_of};
    ghost use Rattle.metainfo.specs.declared.refusals.MetaErr.{MetaErr};
    ghost use Rattle.metainfo.specs.Rules.{metainfo_of};
    ghost use Rattle.metainfo.specs.Urls.{seed_url_of};

    /// What a metainfo file says. An error but want of memory is the first rule that the bytes break; the rules are
    /// tested in this order:
    ///
    /// 1. The bytes are one bencoded value: `Bencode`.
    /// 2. It is a dictionary with `info`, which is one too: `BadKind`, `Lacks`.
    /// 3. `name` is a string that is a valid part of a path: `Lacks`, `BadKind`.
    /// 4. `piece length` is an integer, `Lacks`, `BadKind`, and from 1 to 67,108,864: `TooLarge`.
    /// 5. `pieces` is a string of 20 bytes for each digest: `Lacks`, `BadKind`.
    /// 6. There is one of `length` and `files`: `Lacks(Length)` for none, `BadKind(Files)` for both. `length` is an
    ///    integer of at least 0. `files` is a list, not empty, of dictionaries, each with such a `length` and a `path`
    ///    that is a list of strings.
    /// 7. Each path has 1 to 63 parts behind the name, all valid, and none is that of an earlier file, or one a folder of
    ///    the other: `BadPath`.
    /// 8. The sum of the lengths is at most 4,398,046,511,104, and `Plan::new` takes it: `TooLarge(Length)`.
    /// 9. There are as many digests as pieces: `DigestCount`.
    /// 10. `url-list`, if it is there, is a string or a list, `BadKind`, of strings: `BadSeed`.
    ///
    /// Other keys are passed over, and so are strings of `url-list` that are no `http` URL, or come after 256 that are.
    /// Time is in proportion to the bytes, but for the sorting of the paths.
    pub fn read(alloc: Global, bytes: &[u8]) -> Result<Meta, MetaErr>
        requires { length bytes.now < 2 ^ 32 }
        // What the bytes say, or the first rule that they break, unless memory runs out.
        ensures exact { Gives info_of refusal_of result (metainfo_of bytes.now) }
        // Bytes that say something are refused only for want of memory.
        ensures said { (info : Info) → metainfo_of bytes.now ≡ Ok info
            → IsOkUnless result MetaErr.NoMemory }
        // The first rule that they break is answered, unless memory runs out.
        ensures refused { (e : MetaErr) → metainfo_of bytes.now ≡ Err e
            → (result ≡ Err e) ⊎ (result ≡ Err MetaErr.NoMemory) }
        ensures total { IfOk result (λ meta. total_of meta.layout ≡ meta.plan.total) }
        ensures digests { IfOk result (λ meta. length meta.digests ≡ meta.plan.pieces) }
        ensures sound { IfOk result (λ meta. IsSound (info_of meta)) }
    {
        meta_of(alloc, bytes)
    }

    /// The URL of a file at a web seed (BEP 19), where `base` is the URL that the metainfo file or the user names. For a
    /// single file it is the base, with the name added where that ends in `/`. For several files the name and the parts
    /// of the path follow the base, each behind a `/`. What is added is escaped but for the unreserved characters, by
    /// upper-case digits. The file is told by its number in the layout, from 0.
    pub fn seed_url(&self, alloc: Global, base: &str, file: u32) -> Result<Text, NoMemory>
        requires { file < length self.now.layout }
        ensures { IfOk result (λ url. url ≡ seed_url_of self.now.layout base.now file) }
    {
        let path = &self.layout.files()[file as usize].path;
        let url = url_of(alloc, base, path)?;
        Text::of(alloc, &url)
    }
}
