// The names under which a want's control file stands.
ghost use Rattle.std.specs.Prelude.{◌≡◌, ◌++◌, codes, string_bytes, IfOk};
ghost use Rattle.resume_core.specs.Wants.{payload_name, control_name, temporary_name};

use control_file::{CONTROL_SUFFIX, TEMPORARY_SUFFIX, Want};
use dl_kinds::Texts;
use payload_files::file_name;
use std::alloc::{AllocError, Global};

fn payload_text(alloc: Global, want: &Want) -> Result<String, AllocError>
    ensures { IfOk result (λ name. string_bytes name ≡ payload_name want.now) }
{
    let mut path = Texts::new(alloc);
    path.push(want.base.copy(alloc)?)?;
    file_name(alloc, want.dir.as_str(), &path)
}

/// The name of the control file.
pub(crate) fn control_text(alloc: Global, want: &Want) -> Result<String, AllocError>
    ensures { IfOk result (λ name. string_bytes name ≡ control_name want.now) }
{
    let mut name = payload_text(alloc, want)?;
    name.push_str(CONTROL_SUFFIX)?;
    Ok(name)
}

/// The name under which a control file is written before it takes the place of the other.
pub(crate) fn temporary_text(alloc: Global, want: &Want) -> Result<String, AllocError>
    ensures { IfOk result (λ name. string_bytes name ≡ temporary_name want.now) }
{
    let mut name = payload_text(alloc, want)?;
    name.push_str(TEMPORARY_SUFFIX)?;
    Ok(name)
}
