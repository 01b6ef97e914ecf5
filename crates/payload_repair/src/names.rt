// Names on the disk of a file of a payload, of its folder and of its copy.
ghost use Rattle.std.specs.Prelude.{◌≡◌, ◌≤◌, length, take, option_map, string_bytes, IfOk};
ghost use Rattle.payload_files.specs.Names.{folder_of, name_of};

use dl_kinds::Texts;
use payload_files::file_name;
use std::alloc::{AllocError, Global};

// The names of a file, of the folder that it is in, which a path of one part in `.` lacks, and of its copy.
#[derive(Debug, Drop)]
pub(crate) struct FileNames {
    pub own: String,
    pub folder: Option<String>,
    pub copy: Option<String>,
}

// The parts at the front of a path.
fn front(alloc: Global, path: &Texts, count: usize) -> Result<Texts, AllocError>
    requires { count ≤ length path.now }
    ensures { IfOk result (λ parts. parts ≡ take count path.now) }
{
    let mut parts = Texts::new(alloc);
    for place in 0..count {
        let part = path.at(place).copy(alloc)?;
        parts.push(part)?;
    }
    Ok(parts)
}

fn folder_name(alloc: Global, dir: &str, path: &Texts) -> Result<Option<String>, AllocError>
    ensures { IfOk result (λ folder. option_map string_bytes folder ≡ folder_of dir.now path.now) }
{
    if path.len() > 1 {
        let parts = front(alloc, path, path.len() - 1)?;
        let folder = file_name(alloc, dir, &parts)?;
        return Ok(Some(folder));
    }
    if dir == "." {
        return Ok(None);
    }
    let folder = String::from_str(alloc, dir)?;
    Ok(Some(folder))
}

fn copy_name(alloc: Global, copy: Option<&str>, path: &Texts) -> Result<Option<String>, AllocError>
    ensures { IfOk result (λ name. option_map string_bytes name
        ≡ option_map (λ folder. name_of folder.now path.now) copy.entry) }
{
    match copy {
        Some(folder) => {
            let name = file_name(alloc, folder, path)?;
            Ok(Some(name))
        }
        None => Ok(None),
    }
}

pub(crate) fn names_of(
    alloc: Global,
    dir: &str,
    copy: Option<&str>,
    path: &Texts,
) -> Result<FileNames, AllocError>
    ensures own { IfOk result (λ names. string_bytes names.own ≡ name_of dir.now path.now) }
    ensures folder { IfOk result (λ names. option_map string_bytes names.folder
        ≡ folder_of dir.now path.now) }
    ensures copy { IfOk result (λ names. option_map string_bytes names.copy
        ≡ option_map (λ folder. name_of folder.now path.now) copy.entry) }
{
    let own = file_name(alloc, dir, path)?;
    let folder = folder_name(alloc, dir, path)?;
    let copy = copy_name(alloc, copy, path)?;
    Ok(FileNames { own, folder, copy })
}

// A name as a text, if there is one.
pub(crate) fn as_text(name: &Option<String>) -> Option<&str>
    ensures { option_map (λ text. text.now) result ≡ option_map string_bytes name.now }
{
    match name {
        Some(name) => Some(name.as_str()),
        None => None,
    }
}
