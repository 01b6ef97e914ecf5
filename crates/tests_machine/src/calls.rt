// Calls that are lawful.
ghost use Rattle.std.specs.Prelude.{◌<◌, ◌^◌, IfOk, IfSome, length};
ghost use Rattle.machine_core.specs.LawfulCalls.{IsLawful};

use dl_kinds::{GidKey, MAX_MIRRORS, Text, Texts};
use dl_queue::How;
use link_source::is_usable;
use machine_core::Call;
use metainfo::Meta;
use option_set::{Change, Setting, Settings};
use std::alloc::{AllocError, Global};

/// A call that adds a download of this URL, where it can be asked.
pub fn uri_call(alloc: Global, url: &str) -> Result<Option<Call>, AllocError>
    ensures { IfOk result (λ call. IfSome call IsLawful) }
{
    if !is_usable(alloc, url)? {
        return Ok(None);
    }
    let mut uris = Texts::new(alloc);
    uris.push(Text::of(alloc, url)?)?;
    Ok(Some(Call::AddUri {
        uris,
        options: Settings::new(alloc),
        position: None,
    }))
}

/// A call that adds the download of a metainfo file, where the bytes are one with web seeds.
pub fn torrent_call(alloc: Global, bytes: &[u8]) -> Result<Option<Call>, AllocError>
    ensures { IfOk result (λ call. IfSome call IsLawful) }
{
    if bytes.len() > 1_000_000 {
        return Ok(None);
    }
    let Ok(meta) = Meta::read(alloc, bytes) else {
        return Ok(None);
    };
    if meta.seeds.is_empty() || meta.seeds.len() > MAX_MIRRORS as usize {
        return Ok(None);
    }
    Ok(Some(Call::AddTorrent {
        meta: Box::new(alloc, meta)?,
        uris: Texts::new(alloc),
        options: Settings::new(alloc),
        position: None,
    }))
}

/// A call that changes an option of a download, where it may be changed.
pub fn change_call(alloc: Global, key: GidKey, setting: Setting) -> Result<Option<Call>, AllocError>
    ensures { IfOk result (λ call. IfSome call IsLawful) }
{
    match setting.option().row().change {
        Change::Always => {}
        _ => return Ok(None),
    }
    let mut options = Settings::new(alloc);
    options.push(setting)?;
    Ok(Some(Call::ChangeOption { key, options }))
}

/// A call that changes a global option, where it may be changed.
pub fn global_call(alloc: Global, setting: Setting) -> Result<Option<Call>, AllocError>
    ensures { IfOk result (λ call. IfSome call IsLawful) }
{
    match setting.option().row().change {
        Change::Globally => {}
        _ => return Ok(None),
    }
    let mut options = Settings::new(alloc);
    options.push(setting)?;
    Ok(Some(Call::ChangeGlobalOption { options }))
}

/// A call of the download that a key names, by its word.
pub fn keyed_call(word: &str, key: GidKey) -> Option<Call>
    ensures { IfSome result IsLawful }
{
    match word {
        "pause" => Some(Call::Pause { key }),
        "unpause" => Some(Call::Unpause { key }),
        "remove" => Some(Call::Remove { key }),
        "forget" => Some(Call::RemoveResult { key }),
        "move" => Some(Call::ChangePosition {
            key,
            pos: 1,
            how: How::Cur,
        }),
        _ => None,
    }
}

/// A call of the run, by its word.
pub fn run_call(word: &str) -> Option<Call>
    ensures { IfSome result IsLawful }
{
    match word {
        "pause-all" => Some(Call::PauseAll),
        "unpause-all" => Some(Call::UnpauseAll),
        "purge" => Some(Call::Purge),
        "shutdown" => Some(Call::Shutdown),
        _ => None,
    }
}
