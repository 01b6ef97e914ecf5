// What `aria2.addTorrent` asks for.
ghost use Rattle.std.specs.Prelude.{◌≡◌, ◌<◌, ◌+◌, ◌^◌, ◌∷◌, All, List, ℕ, IfOk, MatchOption, None, Ok, Err, length, map};
ghost use Rattle.link_source.specs.Endpoint.{IsUsable};
ghost use Rattle.metainfo.specs.Info.{info_of};
ghost use Rattle.metainfo.specs.Rules.{metainfo_of};
ghost use Rattle.serde_json.specs.View.{view};
ghost use Rattle.rpc_console.specs.Further.{further_options};
ghost use Rattle.rpc_console.specs.Options.{IfRefused, AreOptions};
ghost use Rattle.rpc_console.specs.Torrents as spec;
ghost use Rattle.rpc_console.specs.Torrents.{HasBase64, IsBase64, AddsTorrentOf, RefusesTorrentOf, RefusesMetainfoOf, IsTorrentAsking, RefusesTorrentAsking};
ghost use Rattle.rpc_console.specs.Uris as uri_specs;
ghost use Rattle.rpc_console.specs.declared.options.OptionUse.TheVariants.{Adding};

use crate::calls::plain;
use crate::further::{are_further, further_options, further_position};
use crate::params::text_list;
use crate::uris::{are_usable, mirrors_fault};
use crate::{Asking, RpcErr};
use base64::DecodeAllocError;
use base64::engine::general_purpose::STANDARD;
use dl_kinds::{NoMemory, Texts};
use machine_core::Call;
use metainfo::{Meta, MetaErr};
use option_set::Settings;
use rpc_envelope::RpcFault;
use serde_json::Value;
use std::alloc::Global;

/// The most bytes of a metainfo file. No body of a request that the console takes has as many.
pub const MAX_TORRENT_LEN: u32 = 4_294_967_295;

// The bytes that a text writes in base64. None is for a text that writes none.
fn base64_bytes(alloc: Global, text: &str) -> Result<Option<Vec<u8>>, NoMemory>
    ensures { IfOk result (λ found. MatchOption found
        ((bytes : List ℕ) → IsBase64 text.now bytes → ⊥)
        (λ bytes. IsBase64 text.now bytes.items)) }
{
    match STANDARD.decode(alloc, text.as_bytes()) {
        Ok(bytes) => Ok(Some(bytes)),
        Err(DecodeAllocError::DecodeError(_)) => Ok(None),
        Err(DecodeAllocError::OutOfMemory) => Err(NoMemory),
    }
}

fn bytes_in(alloc: Global, value: &Value) -> Result<Option<Vec<u8>>, NoMemory>
    ensures { IfOk result (λ found. MatchOption found
        ((bytes : List ℕ) → HasBase64 (view value.now) bytes → ⊥)
        (λ bytes. HasBase64 (view value.now) bytes.items)) }
{
    match value.as_str() {
        Some(text) => base64_bytes(alloc, text),
        None => Ok(None),
    }
}

fn short_meta(alloc: Global, bytes: &[u8]) -> Result<Meta, RpcErr>
    requires { length bytes.now < 2 ^ 32 }
    ensures ok { IfOk result (λ meta.
        spec.or_torrent_fault (metainfo_of bytes.now) ≡ Ok (info_of meta)) }
    ensures refused { IfRefused result (λ fault.
        spec.or_torrent_fault (metainfo_of bytes.now) ≡ Err fault) }
{
    match Meta::read(alloc, bytes) {
        Ok(meta) => Ok(meta),
        Err(MetaErr::Bencode(_)) => Err(RpcErr::Refused(RpcFault::NotBencode)),
        Err(MetaErr::NoMemory) => Err(RpcErr::NoMemory),
        Err(_) => Err(RpcErr::Refused(RpcFault::UnusableTorrent)),
    }
}

// What a metainfo file says.
fn meta_in(alloc: Global, bytes: &[u8]) -> Result<Meta, RpcErr>
    ensures ok { IfOk result (λ meta. spec.torrent_info bytes.now ≡ Ok (info_of meta)) }
    ensures refused { IfRefused result (λ fault. spec.torrent_info bytes.now ≡ Err fault) }
{
    if bytes.len() <= MAX_TORRENT_LEN as usize {
        short_meta(alloc, bytes)
    } else {
        Err(RpcErr::Refused(RpcFault::UnusableTorrent))
    }
}

// What a metainfo file says of which, with these URIs, there are some mirrors and not too many.
fn counted_meta(alloc: Global, bytes: &[u8], uris: &Texts) -> Result<Meta, RpcErr>
    ensures ok { IfOk result (λ meta. (spec.torrent_info bytes.now ≡ Ok (info_of meta))
        × (uri_specs.mirrors_fault (length meta.seeds + length uris.now) ≡ None)) }
    ensures refused { IfRefused result (RefusesMetainfoOf bytes.now uris.now) }
{
    match meta_in(alloc, bytes) {
        Ok(meta) => match mirrors_fault(meta.seeds.len() as u128 + uris.len() as u128) {
            None => Ok(meta),
            Some(fault) => Err(RpcErr::Refused(fault)),
        },
        Err(error) => Err(error),
    }
}

// The call that adds the download of a metainfo file, with these options and mirrors that are usable.
fn torrent_call(
    alloc: Global,
    bytes: &[u8],
    uris: Texts,
    options: Settings,
    further: &[Value],
) -> Result<Asking, RpcErr>
    requires usable { All IsUsable uris }
    requires options { AreOptions Adding (further_options (map view further.now)) options }
    ensures ok { IfOk result (AddsTorrentOf bytes.now uris (map view further.now)) }
    ensures refused { IfRefused result (RefusesTorrentOf bytes.now uris (map view further.now)) }
{
    match counted_meta(alloc, bytes, &uris) {
        Ok(meta) => Ok(plain(Call::AddTorrent {
            meta: Box::new(alloc, meta)?,
            uris,
            options,
            position: further_position(further),
        })),
        Err(error) => Err(error),
    }
}

fn added_torrent(
    alloc: Global,
    bytes: &[u8],
    uris: Texts,
    further: &[Value],
) -> Result<Asking, RpcErr>
    ensures ok { IfOk result (AddsTorrentOf bytes.now uris (map view further.now)) }
    ensures refused { IfRefused result (RefusesTorrentOf bytes.now uris (map view further.now)) }
{
    if !are_usable(alloc, &uris)? {
        return Err(RpcErr::Refused(RpcFault::NoUsableUri));
    }
    match further_options(alloc, further) {
        Ok(options) => torrent_call(alloc, bytes, uris, options, further),
        Err(error) => Err(error),
    }
}

fn torrent_uris(alloc: Global, others: &[Value]) -> Result<Option<Texts>, NoMemory>
    ensures { IfOk result (λ uris. uris ≡ spec.torrent_uris (map view others.now)) }
{
    match others {
        [] => Ok(Some(Texts::new(alloc))),
        [uris, ..] => text_list(alloc, uris),
    }
}

fn behind_uris(others: &[Value]) -> &[Value]
    ensures { map view result.now ≡ spec.behind_uris (map view others.now) }
{
    match others {
        [] => others,
        [_, further @ ..] => further,
    }
}

fn torrent_given(alloc: Global, first: &Value, others: &[Value]) -> Result<Asking, RpcErr>
    ensures ok { IfOk result (IsTorrentAsking (view first.now ∷ map view others.now)) }
    ensures refused { IfRefused result
        (RefusesTorrentAsking (view first.now ∷ map view others.now)) }
{
    let bytes = bytes_in(alloc, first)?;
    let uris = torrent_uris(alloc, others)?;
    let further = behind_uris(others);
    match (bytes, uris) {
        (Some(bytes), Some(uris)) if are_further(further) => added_torrent(
            alloc, &bytes, uris, further,
        ),
        _ => Err(RpcErr::Refused(RpcFault::BadParams)),
    }
}

/// `aria2.addTorrent`: a metainfo file in base64, URIs, options, and a position.
pub fn torrent_asking(alloc: Global, params: &[Value]) -> Result<Asking, RpcErr>
    ensures ok { IfOk result (IsTorrentAsking (map view params.now)) }
    ensures refused { IfRefused result (RefusesTorrentAsking (map view params.now)) }
{
    match params {
        [first, others @ ..] => torrent_given(alloc, first, others),
        [] => Err(RpcErr::Refused(RpcFault::BadParams)),
    }
}
