// Where an `ftp` URL leads.
ghost use Rattle.std.specs.Prelude.{◌≡◌, None, Some, IfOk, option_map, drop, if◌then◌else◌};
ghost use Rattle.std.specs.List.{list_any};
ghost use Rattle.percent_encoding.specs.Percent.{percent_decode};
ghost use Rattle.url.specs.Parser.{parse_url};
ghost use Rattle.url.specs.Parts as parts;
ghost use Rattle.ftp_places.specs.Pathnames.{is_forbidden, is_word, is_pathname};

use dl_kinds::{NoMemory, Text};
use percent_encoding::percent_decode;
use std::alloc::Global;
use thiserror::Error;
use url::{ParseError, Url};

/// Why a URL leads to no file on an FTP server.
#[derive(Clone, Copy, Debug, PartialEq, Eq, Error)]
pub enum FtpErr {
    #[error("no URL")]
    NotUrl,
    #[error("the scheme isn't ftp")]
    Scheme,
    /// Also where a user or a password stands in the URL, as neither is ever sent.
    #[error("no path that a command can name")]
    BadPath,
    #[error("out of memory")]
    NoMemory,
}

/// A file on an FTP server.
#[derive(Debug, Drop)]
pub struct FtpPlace {
    /// As the URL Standard's parser writes it: a domain in lower case, or an address. An IPv6 address keeps its
    /// brackets.
    pub host: Text,
    pub port: u16,
    /// As a command names it (RFC 959 section 5.3.2), from the folder on in which a server begins.
    pub path: Text,
}

fn has_credentials(url: &Url) -> bool
    ensures { result ≡ parts.has_credentials url.now }
{
    !url.username().is_empty() || url.password().is_some()
}

fn is_forbidden(byte: u8) -> bool
    ensures { result ≡ is_forbidden byte }
{
    byte == b'\r' || byte == b'\n' || byte == 0
}

fn has_forbidden(path: &[u8]) -> bool
    ensures { result ≡ list_any is_forbidden path.now }
{
    path.iter().any(|byte| is_forbidden(*byte))
}

fn is_word(path: &[u8]) -> bool
    ensures { result ≡ is_word path.now }
{
    !path.is_empty() && !has_forbidden(path)
}

// The text of a path that a command can name.
#[tactic(auto, using(crate::proofs::PathnameLemmas::text_of_word, crate::proofs::PathnameLemmas::no_word, crate::proofs::PathnameLemmas::no_text))]
fn pathname(path: &[u8]) -> Option<&str>
    ensures { option_map (λ text. text.now) result
        ≡ (if is_pathname path.now then Some path.now else None) }
{
    match std::str::from_utf8(path) {
        Ok(text) if is_word(path) => Some(text),
        _ => None,
    }
}

// The path behind its first slash.
fn decoded_path(alloc: Global, url: &Url) -> Result<Vec<u8>, NoMemory>
    ensures { IfOk result (λ path. path.items ≡ percent_decode (drop 1 url.now.path)) }
{
    let path = url.path().as_bytes();
    let mut decoded = Vec::new(alloc);
    percent_decode(&path[path.len().min(1)..]).append_to(&mut decoded)?;
    Ok(decoded)
}

impl FtpPlace {
    ghost use Rattle.ftp_places.specs.Places.{FollowsFtp, FollowsPath, place_of};

    /// What an `ftp` URL names. The query and the fragment are left out, and the port is 21 where the URL has none. A
    /// second slash stays, so that `%2F` leads to a path from the root on (RFC 1738 section 3.2.2).
    pub fn of(alloc: Global, url: &str) -> Result<Self, FtpErr>
        ensures { FollowsFtp result (parse_url None url.now) }
    {
        match Url::parse(alloc, url) {
            Ok(url) => {
                if url.scheme() != "ftp" {
                    return Err(FtpErr::Scheme);
                }
                FtpPlace::place_at(alloc, &url)
            }
            Err(ParseError::OutOfMemory | ParseError::Overflow) => Err(FtpErr::NoMemory),
            Err(_) => Err(FtpErr::NotUrl),
        }
    }

    fn place_at(alloc: Global, url: &Url) -> Result<Self, FtpErr>
        ensures { FollowsPath result url.now }
    {
        if has_credentials(url) {
            return Err(FtpErr::BadPath);
        }
        let path = decoded_path(alloc, url).map_err(|_| FtpErr::NoMemory)?;
        let path = pathname(&path).ok_or(FtpErr::BadPath)?;
        FtpPlace::named(alloc, url, path).map_err(|_| FtpErr::NoMemory)
    }

    fn named(alloc: Global, url: &Url, path: &str) -> Result<Self, NoMemory>
        ensures { IfOk result (λ place. place ≡ place_of url.now path.now) }
    {
        Ok(FtpPlace {
            host: Text::of(alloc, url.host_str().unwrap_or(""))?,
            port: url.port().unwrap_or(21),
            path: Text::of(alloc, path)?,
        })
    }
}
