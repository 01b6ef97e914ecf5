// The metainfo file of a load.
ghost use Rattle.std.specs.Prelude.{◌≡◌, ◌++◌, length, IfOk, OnOk};
ghost use Rattle.load_setup.specs.Metainfo.{digests_joined, metainfo_by};

use dl_kinds::Digests;
use std::alloc::{AllocError, Global};

/// The name of the metainfo file.
pub const TORRENT: &str = "load.torrent";

// What stands before the digests.
const FRONT: &[u8] =
    b"d4:infod6:lengthi67108864e4:name8:load.bin12:piece lengthi1048576e6:pieces1280:";

// What stands behind them: the mirrors.
const BACK: &[u8] =
    b"e8:url-listl23:http://m0.test/load.bin23:http://m1.test/load.bin23:http://m2.test/load.binee";

fn add_digests(text: &mut Vec<u8>, digests: &Digests) -> Result<(), AllocError>
    ensures { OnOk result (text.new.items ≡ text.old.items ++ digests_joined digests.now) }
{
    for place in 0..digests.len() {
        if let Some(digest) = digests.get(place) {
            text.extend_from_slice(digest)?;
        }
    }
    Ok(())
}

/// A metainfo file (BEP 3) of the payload with these digests, at the three mirrors (BEP 19).
pub fn load_metainfo(alloc: Global, digests: &Digests) -> Result<Vec<u8>, AllocError>
    ensures { IfOk result (λ text. text.items ≡ metainfo_by digests.now) }
{
    let mut text = FRONT.to_vec(alloc)?;
    add_digests(&mut text, digests)?;
    text.extend_from_slice(BACK)?;
    Ok(text)
}
