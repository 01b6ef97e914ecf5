// The laws of the definition.
ghost use Rattle.std.specs.Prelude.{◌≡◌, ◌↔◌, ◌⊎◌, ℕ, List, Some, None, IsTrue};
ghost use Rattle.dl_kinds.specs.Plan.{IsPlan};
ghost use Rattle.span_map.specs.Layout.{HavePaths, IsRefused};
ghost use Rattle.span_map.specs.Paths.{IsValidPart};
ghost use Rattle.span_map.specs.declared.files.FileLen.{FileLen};
ghost use Rattle.span_map.specs.declared.files.LayoutErr.TheVariants.{BadPath, Repeated};
ghost use Rattle.metainfo.specs.Info.{Info, IsSeed, IsSound};
ghost use Rattle.metainfo.specs.Rules.{IsMetaOfSome};
ghost use Rattle.metainfo.specs.Tests.{is_part, bad_file, is_plan, is_seed};
ghost use Rattle.metainfo.specs.declared.rules.TheConstants.{DIGEST_LEN};

/// The tests that the rules make say what the crates below say of parts, paths, plans and URLs.
pub fn tests_say_what_holds()
    ensures part { (part : List ℕ) → IsTrue (is_part part) ↔ IsValidPart part }
    ensures paths { (files : List FileLen) → (bad_file files ≡ None) ↔ HavePaths files }
    ensures bad { (files : List FileLen) (i : ℕ) → (bad_file files ≡ Some i)
        ↔ (IsRefused files (BadPath i) ⊎ IsRefused files (Repeated i)) }
    ensures plan { (total piece_len : ℕ)
        → IsTrue (is_plan total piece_len) ↔ IsPlan total piece_len }
    ensures seed { (bytes : List ℕ) → IsTrue (is_seed bytes) ↔ IsSeed bytes }
{}

/// Whatever a metainfo file says is within the limits, and its parts fit each other.
pub fn metainfo_is_sound()
    ensures { (said : Info) → IsMetaOfSome said → IsSound said }
{}

/// The bytes of a digest. It does nothing when it runs.
pub fn limits_are_told()
    ensures { DIGEST_LEN ≡ 20 }
{}
