// Names of files and folders on the disk.
ghost use Rattle.std.specs.Prelude.{◌≡◌, ◌≤◌, ◌<◌, ◌+◌, Some, length, take, slice_get, option_map, string_bytes, IfOk, OnOk};
ghost use Rattle.payload_files.specs.Names.{path_text, root_of, name_of, folder_of};

use dl_kinds::Texts;
use std::alloc::{AllocError, Global};

/// The byte `.`, which alone is the name of the folder in which the program runs.
pub const DOT: u8 = 46;

/// The byte `/`, which stands between the parts of a path.
pub const SLASH: u8 = 47;

// Adds the part at this place to those before it.
fn add_part(text: &mut String, path: &Texts, place: usize) -> Result<(), AllocError>
    requires within { place < length path.now }
    requires front { string_bytes text.old ≡ path_text (take place path.now) }
    ensures { OnOk result (string_bytes text.new ≡ path_text (take (place + 1) path.now)) }
{
    if place == 0 {
        return text.push_str(path.at(place).as_str());
    }
    text.push('/')?;
    text.push_str(path.at(place).as_str())
}

// The parts at the front of a path.
fn front(alloc: Global, path: &Texts, count: usize) -> Result<String, AllocError>
    requires { count ≤ length path.now }
    ensures { IfOk result (λ text. string_bytes text ≡ path_text (take count path.now)) }
{
    let mut text = String::new(alloc);
    for place in 0..count {
        add_part(&mut text, path, place)?;
    }
    Ok(text)
}

// What stands before the names in a folder.
fn root(alloc: Global, dir: &str) -> Result<String, AllocError>
    ensures { IfOk result (λ root. string_bytes root ≡ root_of dir.now) }
{
    let mut root = String::new(alloc);
    if dir != "." {
        root.push_str(dir)?;
        root.push('/')?;
    }
    Ok(root)
}

// The name of the parts at the front of a path.
fn front_name(alloc: Global, dir: &str, path: &Texts, count: usize) -> Result<String, AllocError>
    requires { count ≤ length path.now }
    ensures { IfOk result (λ name. string_bytes name ≡ name_of dir.now (take count path.now)) }
{
    let mut name = root(alloc, dir)?;
    name.push_str(front(alloc, path, count)?.as_str())?;
    Ok(name)
}

/// The name on the disk of the file of a path in a folder: the folder and the parts of the path with `/` between them,
/// and the path alone in the folder `.`.
pub fn file_name(alloc: Global, dir: &str, path: &Texts) -> Result<String, AllocError>
    ensures { IfOk result (λ name. string_bytes name ≡ name_of dir.now path.now) }
{
    front_name(alloc, dir, path, path.len())
}

/// The name of the folder of a path, which a path of one part in `.` lacks.
pub(crate) fn folder_name(
    alloc: Global,
    dir: &str,
    path: &Texts,
) -> Result<Option<String>, AllocError>
    ensures { IfOk result (λ folder. option_map string_bytes folder ≡ folder_of dir.now path.now) }
{
    if path.len() > 1 {
        let folder = front_name(alloc, dir, path, path.len() - 1)?;
        return Ok(Some(folder));
    }
    if dir == "." {
        return Ok(None);
    }
    let folder = String::from_str(alloc, dir)?;
    Ok(Some(folder))
}
