// A text of some form in a field, with zeros behind it.
ghost use Rattle.std.specs.Prelude.{◌≡◌, List, ℕ, Bool, ◌&&◌, ◌+◌, ◌≤◌, length};
ghost use Rattle.std.specs.Fn.{FnReturnsAt};
ghost use Rattle.buffers.specs.Fields.{text_at, is_filled};

use buffers::{is_zero, text};

// Whether the text in a field has a form, and zeros fill the field up behind it.
pub fn holds_padded<F: Fn(&[u8]) -> bool>(s: &[u8], at: usize, width: usize, has_form: F) -> bool
    requires callable { F.IsAlwaysCallable has_form }
    requires in_bounds { at + width ≤ length s.now }
    ensures { (test : List ℕ → Bool) → ((t : List ℕ) (r : Bool) → FnReturnsAt F.Fn has_form t r → r ≡ test t)
        → result ≡ (test (text_at at width s.now) && is_filled at width s.now) }
{
    let field = text(s, at, width);
    has_form(field) && is_zero(s, at + field.len(), at + width)
}
