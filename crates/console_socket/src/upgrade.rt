// The request that asks for a WebSocket.
ghost use Rattle.std.specs.Prelude.{◌≡◌, ◌↔◌, Some, IsTrue, IfOk, codes};
ghost use Rattle.std.specs.List.{list_any};
ghost use Rattle.http_header.specs.Token.{lowercase};
ghost use Rattle.http_heads.specs.Fields.{field_values, sole};
ghost use Rattle.console_socket.specs.Upgrades.{AcceptsHead, FindsUpgrade, ReadsUpgrade, has_field, is_upgrade, is_word, switching_text};

use dl_kinds::NoMemory;
use http_header::{HeaderMap, HeaderValue, ValueIter};
use http_heads::{
    AskHead, AskRead, ask_heads_are_one_and_stay, field_names, read_ask_head, sole_field,
};
use std::alloc::Global;
use websocket::handshake::server::accept_key;

fn is_word(value: &[u8], word: &[u8]) -> bool
    ensures { result ≡ is_word word.now value.now }
{
    value.eq_ignore_ascii_case(word)
}

fn any_is(mut values: ValueIter<'_, HeaderValue>, word: &[u8]) -> bool
    ensures { result ≡ list_any (λ value. is_word word.now value.bytes) values.entry }
{
    values.any(|value| is_word(value.as_bytes(), word))
}

// Whether a field of the name is the word: both are taken in any case.
fn has_field(fields: &HeaderMap<HeaderValue>, name: &str, word: &[u8]) -> bool
    ensures { result ≡ has_field fields.now (lowercase name.now) word.now }
{
    any_is(fields.get_all(name).iter(), word)
}

fn is_upgrade(head: &AskHead) -> bool
    ensures { result ≡ is_upgrade head.now }
{
    head.method.as_str() == "GET"
        && head.target.as_str() == "/jsonrpc"
        && has_field(&head.fields, "upgrade", b"websocket")
}

/// Whether a whole request for a WebSocket at the console's target stands at the front of the bytes, and how many bytes it
/// takes. Whether what it asks for can be had is another matter.
pub fn upgrade_at(alloc: Global, bytes: &[u8]) -> Result<Option<u32>, NoMemory>
    ensures { IfOk result (FindsUpgrade bytes.now) }
{
    ask_heads_are_one_and_stay();
    match read_ask_head(alloc, bytes) {
        AskRead::Whole { head, used } => {
            if is_upgrade(&head) {
                Ok(Some(used))
            } else {
                Ok(None)
            }
        }
        AskRead::More | AskRead::Bad => Ok(None),
        AskRead::NoMemory => Err(NoMemory),
    }
}

fn is_version_13(head: &AskHead) -> bool
    ensures { IsTrue result ↔ (sole (field_values head.now.fields (codes "sec-websocket-version"))
        ≡ Some (codes "13")) }
{
    match sole_field(&head.fields, "sec-websocket-version") {
        Some(version) => version == b"13".as_slice(),
        None => false,
    }
}

// The key that answers the head, where that is right.
fn accepted(head: &AskHead) -> Option<[u8; 28]>
    ensures { AcceptsHead result head.now }
{
    if head.minor != 1 || !field_names(&head.fields, "connection", b"upgrade") {
        return None;
    }
    if !is_version_13(head) {
        return None;
    }
    let key = sole_field(&head.fields, "sec-websocket-key")?;
    match accept_key(key) {
        Ok(accept) => Some(accept),
        Err(_) => None,
    }
}

/// What the request at the front of the bytes comes to: how many bytes it takes, and the key that answers it, where it is right.
#[derive(Clone, Copy, Debug)]
pub(crate) enum ReadUpgrade {
    Right { used: u32, accept: [u8; 28] },
    Wrong,
    NoMemory,
}

pub(crate) fn read_upgrade(alloc: Global, bytes: &[u8]) -> ReadUpgrade
    ensures { ReadsUpgrade bytes.now result }
{
    ask_heads_are_one_and_stay();
    match read_ask_head(alloc, bytes) {
        AskRead::Whole { head, used } => match accepted(&head) {
            Some(accept) => ReadUpgrade::Right { used, accept },
            None => ReadUpgrade::Wrong,
        },
        AskRead::More | AskRead::Bad => ReadUpgrade::Wrong,
        AskRead::NoMemory => ReadUpgrade::NoMemory,
    }
}

const SWITCHING: &[u8] =
    b"HTTP/1.1 101 Switching Protocols\r\nUpgrade: websocket\r\nConnection: Upgrade\r\nSec-WebSocket-Accept: ";

/// The answer to a request that is right.
pub(crate) fn switching_text(alloc: Global, accept: &[u8; 28]) -> Result<Vec<u8>, NoMemory>
    ensures { IfOk result (λ text. text.items ≡ switching_text accept.now) }
{
    let mut text = Vec::from_slice(alloc, SWITCHING)?;
    text.extend_from_slice(accept)?;
    text.extend_from_slice(b"\r\n\r\n")?;
    Ok(text)
}
