// Calls that add downloads.
ghost use Rattle.std.specs.Prelude.{◌^◌, ◌<◌, IfOk, IfSome, length};
ghost use Rattle.machine_core.specs.LawfulCalls.{AreOfDownloads, IsLawful};

use dl_kinds::{MAX_MIRRORS, Text, Texts};
use link_source::is_usable;
use machine_core::Call;
use metainfo::Meta;
use option_set::{Scope, Setting, Settings};
use std::alloc::{AllocError, Global};

/// No options.
pub fn no_options(alloc: Global) -> Settings
    ensures { AreOfDownloads result }
{
    Settings::new(alloc)
}

/// One option, where it is one of downloads.
pub fn one_option(alloc: Global, setting: Setting) -> Result<Option<Settings>, AllocError>
    ensures { IfOk result (λ options. IfSome options AreOfDownloads) }
{
    match setting.option().row().scope {
        Scope::Download => {}
        _ => return Ok(None),
    }
    let mut options = Settings::new(alloc);
    options.push(setting)?;
    Ok(Some(options))
}

/// A call that adds a download of this URL, where it can be asked.
pub fn uri_call(alloc: Global, url: &str, options: Settings) -> Result<Option<Call>, AllocError>
    requires { AreOfDownloads options }
    ensures { IfOk result (λ call. IfSome call IsLawful) }
{
    if !is_usable(alloc, url)? {
        return Ok(None);
    }
    let mut uris = Texts::new(alloc);
    uris.push(Text::of(alloc, url)?)?;
    Ok(Some(Call::AddUri {
        uris,
        options,
        position: None,
    }))
}

/// A call that adds the download of a metainfo file, which has web seeds.
pub fn torrent_call(
    alloc: Global,
    bytes: &[u8],
    options: Settings,
) -> Result<Option<Call>, AllocError>
    requires bytes { length bytes.now < 2 ^ 32 }
    requires options { AreOfDownloads options }
    ensures { IfOk result (λ call. IfSome call IsLawful) }
{
    let Ok(meta) = Meta::read(alloc, bytes) else {
        return Ok(None);
    };
    if meta.seeds.is_empty() || meta.seeds.len() > MAX_MIRRORS as usize {
        return Ok(None);
    }
    Ok(Some(Call::AddTorrent {
        meta: Box::new(alloc, meta)?,
        uris: Texts::new(alloc),
        options,
        position: None,
    }))
}
