// The laws of the definition.
ghost use Rattle.std.specs.Prelude.{◌↔◌, ℕ, IsTrue};
ghost use Rattle.merkle_trees.specs.Trees.{IsPieceLen};
ghost use Rattle.meta_v2.specs.Rules.{IsMetaOfSomeV2, is_length_of_pieces};
ghost use Rattle.meta_v2.specs.Sound.{IsSoundV2};
ghost use Rattle.meta_v2.specs.declared.meta.MetaV2.{MetaV2};

/// The thirteen powers that the rules take are the lengths that pieces may have. It does nothing when it runs.
pub fn lengths_are_those_of_pieces()
    ensures { (n : ℕ) → IsTrue (is_length_of_pieces n) ↔ IsPieceLen n }
{}

/// Whatever a metainfo file says as version 2 is within the limits, and its parts fit each other. It does nothing when it
/// runs.
pub fn metainfo_v2_is_sound()
    ensures { (meta : MetaV2) → IsMetaOfSomeV2 meta → IsSoundV2 meta }
{}
