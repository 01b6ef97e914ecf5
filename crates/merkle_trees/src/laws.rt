// What holds of leaves and of roots.
ghost use Rattle.std.specs.Prelude.{◌≡◌, ◌^◌};
ghost use Rattle.merkle_trees.specs.Laws.{DifferingIsExact, LayersHaveFileRoots, OtherLeavesAreOfOtherBlocks};
ghost use Rattle.merkle_trees.specs.declared.hashes.TheConstants.{SHA256_LEN};
ghost use Rattle.merkle_trees.specs.declared.places.TheConstants.{MAX_COMPARED};
ghost use Rattle.merkle_trees.specs.declared.trees.TheConstants.{MAX_WIDTH};

/// `differing` lists just the places of different leaves, and blocks with different leaves are different. It does
/// nothing when it runs.
pub fn other_leaves_are_of_other_blocks()
    ensures places { DifferingIsExact }
    ensures blocks { OtherLeavesAreOfOtherBlocks }
{}

/// The root of a file by the roots of its pieces is that by all of its leaves. It does nothing when it runs.
pub fn layers_have_file_roots()
    ensures { LayersHaveFileRoots }
{}

/// The bytes of a hash, and the most leaves of a tree and of a row that is compared. It does nothing when it runs.
pub fn limits_are_told()
    ensures hash { SHA256_LEN ≡ 32 }
    ensures width { MAX_WIDTH ≡ 2 ^ 31 }
    ensures compared { MAX_COMPARED ≡ 65536 }
{}
