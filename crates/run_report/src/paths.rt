// The path in the line of a download.
ghost use Rattle.std.specs.Prelude.{◌≡◌, ◌≤◌, ◌∷◌, [], IfOk, IsSome, Some, length, slice_get, string_bytes, unwrap_or};
ghost use Rattle.machine_core.specs.LawfulCalls.{IsLawful};
ghost use Rattle.machine_core.specs.MachineParts.{subject_of_call};
ghost use Rattle.machine_core.specs.Starts.{Download};
ghost use Rattle.option_set.specs.Values.{text_of_word};
ghost use Rattle.option_set.specs.declared.kinds.Word.TheVariants as word;
ghost use Rattle.payload_files.specs.Names.{name_of};
ghost use Rattle.run_report.specs.Paths.{IsPathOf, IsRootName};

use dl_kinds::{Text, Texts};
use machine_core::{Call, payload_folder, payload_name};
use option_set::Options;
use payload_files::file_name;
use std::alloc::{AllocError, Global};

// A name in the folder of the options.
fn in_folder(alloc: Global, begun: &Options, name: Text) -> Result<String, AllocError>
    ensures { IfOk result (λ path. string_bytes path
        ≡ name_of (unwrap_or (text_of_word begun.now word.Dir) []) (name ∷ [])) }
{
    let mut path = Texts::new(alloc);
    path.push(name)?;
    file_name(alloc, payload_folder(begun), &path)
}

// The first URI.
fn first_uri(alloc: Global, uris: &Texts) -> Result<String, AllocError>
    requires { 1 ≤ length uris.now }
    ensures { IfOk result (λ uri. slice_get uris.now 0 ≡ Some (string_bytes uri)) }
{
    String::from_str(alloc, uris.at(0).as_str())
}

// The name of the payload in its folder.
fn root_name(alloc: Global, call: &Call, begun: &Options) -> Result<String, AllocError>
    requires lawful { IsLawful call.now }
    requires adds { IsSome (subject_of_call call.now) }
    ensures { (download : Download) → subject_of_call call.now ≡ Some download.subject
        → begun.now ≡ download.options
        → IfOk result (λ path. IsRootName download (string_bytes path)) }
{
    let name = payload_name(alloc, call, begun)?;
    let path = in_folder(alloc, begun, name)?;
    Ok(path)
}

/// The path in the line of the download that a call added, with the options that it began with: the name of its payload, and
/// of one without a metainfo file whose length isn't known the first URI.
pub(crate) fn path_of(
    alloc: Global,
    call: &Call,
    begun: &Options,
    is_known: bool,
) -> Result<String, AllocError>
    requires lawful { IsLawful call.now }
    requires adds { IsSome (subject_of_call call.now) }
    ensures { (download : Download) → subject_of_call call.now ≡ Some download.subject
        → begun.now ≡ download.options
        → IfOk result (λ path. IsPathOf download is_known (string_bytes path)) }
{
    match call {
        Call::AddTorrent { .. } => root_name(alloc, call, begun),
        Call::AddUri { uris, .. } => {
            if is_known {
                root_name(alloc, call, begun)
            } else {
                first_uri(alloc, uris)
            }
        }
        // No other call adds one.
        _ => unreachable!(),
    }
}
