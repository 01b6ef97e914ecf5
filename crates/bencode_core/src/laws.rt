// The laws of the grammar.
ghost use Rattle.std.specs.Prelude.{◌≡◌, ◌↔◌, ℕ, List, ◌++◌, ◌^◌, ◌<◌, Ok, length};
ghost use Rattle.bencode_core.specs.Value.{Value, IsValue, Spells, spelling};
ghost use Rattle.bencode_core.specs.Reading.{reading};
ghost use Rattle.bencode_core.specs.declared.reading.TheConstants.{MAX_DEPTH};

/// A value has one spelling, and bytes spell one value.
pub fn one_spelling()
    ensures spelled { (v : Value) → IsValue v → Spells v (spelling v) }
    ensures bytes { (v : Value) (a b : List ℕ) → Spells v a → Spells v b → a ≡ b }
    ensures value { (v w : Value) (bytes : List ℕ) → Spells v bytes → Spells w bytes → v ≡ w }
{}

/// No spelling is the beginning of another, so that one value stands at the front of bytes whatever follows it.
pub fn no_spelling_begins_another()
    ensures { (v w : Value) (a b x y : List ℕ) → Spells v a → Spells w b → a ++ x ≡ b ++ y
        → (v ≡ w) × (a ≡ b) × (x ≡ y) }
{}

/// Reading gives a value exactly where the bytes spell it; so what was written is read again.
pub fn reads_what_is_spelled()
    ensures { (v : Value) (bytes : List ℕ) → length bytes < 2 ^ 32
        → (reading bytes ≡ Ok v) ↔ Spells v bytes }
{}

/// How deep values may stand in one another. It does nothing when it runs.
pub fn limits_are_told()
    ensures { MAX_DEPTH ≡ 100 }
{}
