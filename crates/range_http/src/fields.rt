// The field that says where a resource is.
ghost use Rattle.std.specs.Prelude.{ℕ, List, IfSome, IfNone};
ghost use Rattle.range_http.specs.Fields.{IsLocation};

use http_heads::{Head, sole_field};

/// The text of the field `Location`. None is for none or several of them, and for one that isn't UTF-8.
pub fn location(head: &Head) -> Option<&str>
    ensures found { IfSome result (λ text. IsLocation head.now text.now) }
    ensures none { IfNone result ((text : List ℕ) → IsLocation head.now text → ⊥) }
{
    std::str::from_utf8(sole_field(&head.fields, "location")?).ok()
}
