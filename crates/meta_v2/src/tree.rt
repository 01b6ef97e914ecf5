// The walk through a file tree.
ghost use Rattle.std.specs.Prelude.{◌≡◌, ◌≤◌, ◌++◌, ◌∷◌, [], None, length, map, MatchBool, IfOk, OnOk};
ghost use Rattle.dl_kinds.specs.Answers.{Gives};
ghost use Rattle.bencode_core.specs.Value.{spelling};
ghost use Rattle.bencode_core.specs.Placed.{members_of};
ghost use Rattle.meta_v2.specs.Refusals.{or_refusal, refusal_of};
ghost use Rattle.meta_v2.specs.Rules as specs;
ghost use Rattle.meta_v2.specs.Trees.{with_both, files_of_tree};
ghost use Rattle.meta_v2.specs.Walks.{branch_files, folder_files, files_left, seen, IsShortened, WalksBranch};
ghost use Rattle.meta_v2.specs.declared.refusals.KeyV2.TheVariants.{FileTree};
ghost use Rattle.meta_v2.specs.declared.refusals.V2Err.TheVariants.{BadKind};

use crate::fields::{is_dict, value_in};
use crate::{KeyV2, V2Err};
use bencode_core::BenSlice;
use dl_kinds::NoMemory;
use std::alloc::Global;

/// What stands in a tree behind these parts: a folder, or the dictionary that describes a file.
#[derive(Debug, Drop)]
pub(crate) struct Branch<'a> {
    pub path: Vec<&'a [u8]>,
    pub found: BenSlice<'a>,
}

// What stands in the folder by this key.
fn in_folder<'a>(
    alloc: Global,
    path: &[&'a [u8]],
    key: &'a [u8],
    found: BenSlice<'a>,
) -> Result<Branch<'a>, NoMemory>
    ensures path { IfOk result (λ branch. map (λ part. part.now) branch.path.items
        ≡ map (λ part. part.now) path.now ++ key.now ∷ []) }
    ensures found { IfOk result (λ branch. branch.found ≡ found.entry) }
{
    let mut parts = Vec::with_capacity(alloc, path.len() + 1)?;
    for part in path {
        parts.push(*part)?;
    }
    parts.push(key)?;
    Ok(Branch { path: parts, found })
}

// Opens a folder: what stands in it is to be walked, the first of it next.
fn open<'a>(alloc: Global, folder: &Branch<'a>, rest: &mut Vec<Branch<'a>>) -> Result<(), NoMemory>
    ensures leaves { OnOk result (files_left rest.new.items
        ≡ with_both (folder_files folder.now) (files_left rest.old.items)) }
    ensures less { OnOk result (IsShortened folder.now rest.old.items rest.new.items) }
{
    let mut members = folder.found.members(alloc)?;
    while let Some((key, found)) = members.pop() {
        rest.push(in_folder(alloc, &folder.path, key, found)?)?;
    }
    Ok(())
}

// Walks a branch. False where it is no tree.
fn walk<'a>(
    alloc: Global,
    branch: Branch<'a>,
    files: &mut Vec<Branch<'a>>,
    rest: &mut Vec<Branch<'a>>,
) -> Result<bool, NoMemory>
    ensures leaves { IfOk result (λ is. MatchBool is
        (WalksBranch branch.entry files.old.items rest.old.items files.new.items rest.new.items)
        (branch_files branch.entry ≡ None)) }
    ensures less { OnOk result (IsShortened branch.entry rest.old.items rest.new.items) }
{
    if !is_dict(&branch.found) {
        return Ok(false);
    }
    match branch.found.member(b"") {
        None => {
            open(alloc, &branch, rest)?;
            Ok(true)
        }
        Some(found) if is_dict(&found) => {
            files.push(Branch {
                path: branch.path,
                found,
            })?;
            Ok(true)
        }
        Some(_) => Ok(false),
    }
}

// The files of a tree.
fn files_of_tree<'a>(alloc: Global, tree: BenSlice<'a>) -> Result<Vec<Branch<'a>>, V2Err>
    ensures exact { Gives (λ files. map seen files.items) refusal_of result
        (or_refusal (BadKind FileTree) (files_of_tree tree.entry)) }
    ensures few { IfOk result (λ files. length files.items ≤ length (spelling tree.entry.value)) }
{
    let mut files = Vec::new(alloc);
    let mut rest = Vec::new(alloc);
    rest.push(Branch {
        path: Vec::new(alloc),
        found: tree,
    })?;
    while let Some(branch) = rest.pop() {
        if !walk(alloc, branch, &mut files, &mut rest)? {
            return Err(V2Err::BadKind(KeyV2::FileTree));
        }
    }
    Ok(files)
}

/// The files of the tree, each with the dictionary that describes it.
#[tactic(auto, unfolding(crate::specs::Rules::tree_in), using(metainfo::proofs::Lengths::part_len))]
pub(crate) fn tree_in<'a>(alloc: Global, info: &BenSlice<'a>) -> Result<Vec<Branch<'a>>, V2Err>
    ensures exact { Gives (λ files. map seen files.items) refusal_of result
        (specs.tree_in info.now) }
    ensures few { IfOk result (λ files. length files.items ≤ length (spelling info.now.value)) }
{
    let tree = value_in(info, KeyV2::FileTree)?;
    files_of_tree(alloc, tree)
}
