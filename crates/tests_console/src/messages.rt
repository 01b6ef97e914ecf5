// Requests of clients, and what they are sent.
use crate::spelling::{repeated, shown};
use anyhow::{Context, Result};
use dl_kinds::Blob;
use std::alloc::Global;

/// A request with this content.
pub fn posted(alloc: Global, content: &[u8]) -> Result<Vec<u8>> {
    let head = format!(in alloc;
        "POST /jsonrpc HTTP/1.1\r\nHost: localhost:6800\r\nContent-Length: {}\r\n\r\n",
        content.len()
    )?;
    let mut bytes = head.as_bytes().to_vec(alloc)?;
    bytes.extend_from_slice(content)?;
    Ok(bytes)
}

/// The content that asks for a method, with parameters behind a space or none, under the id 1.
fn call_content(alloc: Global, call: &str) -> Result<Vec<u8>> {
    let (method, params) = call.split_once(' ').unwrap_or((call, "[]"));
    let content = format!(in alloc;
        r#"{{"jsonrpc":"2.0","id":1,"method":"{method}","params":{params}}}"#
    )?;
    Ok(content.as_bytes().to_vec(alloc)?)
}

/// The content of a request, by the word and the rest of its line; none for another word.
pub fn content_of(alloc: Global, word: &str, rest: &str) -> Result<Option<Vec<u8>>> {
    match word {
        "call" => Ok(Some(call_content(alloc, rest)?)),
        "post" => Ok(Some(rest.as_bytes().to_vec(alloc)?)),
        "make" => Ok(Some(repeated(alloc, rest)?)),
        _ => Ok(None),
    }
}

// The content of a response with status 200, whose head is as it has to be.
fn content_sent<'a>(alloc: Global, sent: &'a str) -> Result<Option<&'a str>> {
    let Some((_, content)) = sent.split_once("\r\n\r\n") else {
        return Ok(None);
    };
    let head = format!(in alloc;
        "HTTP/1.1 200 OK\r\nContent-Type: application/json-rpc\r\nContent-Length: {}\r\n\r\n",
        content.len()
    )?;
    if sent.strip_prefix(head.as_str()) == Some(content) {
        Ok(Some(content))
    } else {
        Ok(None)
    }
}

/// Shows the response to a content: the content of one with status 200, whose head is as it has to be, and any other whole.
pub fn shown_response(alloc: Global, sent: &[u8]) -> Result<String> {
    let text = str::from_utf8(sent).ok().context("no text was sent")?;
    let told = content_sent(alloc, text)?.unwrap_or(text);
    shown(alloc, told.as_bytes())
}

/// The one client that sends these bytes.
pub fn one_client(alloc: Global, bytes: Vec<u8>) -> Result<Vec<Blob>> {
    let mut clients = Vec::new(alloc);
    clients.push(Blob::wrap(bytes))?;
    Ok(clients)
}
