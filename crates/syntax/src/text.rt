// Texts: cut at a byte, and tested byte by byte.
ghost use Rattle.std.specs.Prelude.{◌≡◌, ◌+◌, ◌≤◌, length, drop};
ghost use Rattle.syntax.specs.Pieces.{piece_length};
ghost use Rattle.syntax.specs.Path.{name_byte, is_name};
ghost use Rattle.syntax.specs.Field.{content_byte, is_content};
ghost use Rattle.syntax.specs.Parts.{field_at};

use crate::{CONTENT_LIMIT, Field, Span};

// Whether a byte is a-z, 0-9 or `_`: letters first, as most are, and the others without a branch. Of one `matches!` the compiler
// tests `_` first.
#[tactic(auto, using(std::proofs::lemmas::Bool::Decides::nat_tests), unfolding(crate::specs::Path::name_byte))]
fn is_name_byte(b: u8) -> bool
    ensures { result ≡ name_byte b }
{
    matches!(b, b'a'..=b'z') || (matches!(b, b'0'..=b'9') | (b == b'_'))
}

// Whether a byte is one of 32 to 126 without comma.
#[tactic(auto, using(std::proofs::lemmas::Bool::Decides::nat_tests), unfolding(crate::specs::Field::content_byte))]
fn is_content_byte(b: u8) -> bool
    ensures { result ≡ content_byte b }
{
    matches!(b, b' '..=b'~') && b != b','
}

// Where the piece that starts at a place ends: at the separator, or where the text ends. Over the range, since a `position` counts the
// piece beside the place: a tag's path is judged in each call.
pub fn piece_end(s: &[u8], at: usize, separator: u8) -> usize
    requires { at ≤ length s.now }
    ensures { (result ≡ at + piece_length separator (drop at s.now)) × (result ≤ length s.now) }
{
    for i in at..s.len() {
        if s[i] == separator {
            return i;
        }
    }
    s.len()
}

// The field of a line that starts at a place.
pub fn field_at(line: &[u8], at: usize) -> Field
    requires { at ≤ length line.now }
    ensures { result ≡ field_at line.now at }
{
    let end = piece_end(line, at, b',');
    Field {
        start: at,
        end,
        last: end == line.len(),
    }
}

impl Field {
    // The part that a field is.
    pub fn span(self) -> Span
        ensures { (result.start ≡ self.start) × (result.end ≡ self.end) }
    {
        Span {
            start: self.start,
            end: self.end,
        }
    }
}

// Whether a text is a name or password: 1 to 8 bytes of a-z, 0-9, `_`.
#[tactic(auto, using(std::proofs::lemmas::Bool::Decides::nat_tests), unfolding(crate::specs::Path::is_name))]
pub fn is_name(s: &[u8]) -> bool
    ensures { result ≡ is_name s.now }
{
    1 <= s.len() && s.len() <= 8 && s.iter().all(|b| is_name_byte(*b))
}

// Whether a text is a content: no more bytes than its limit, of 32 to 126 without comma.
#[tactic(auto, using(std::proofs::lemmas::Bool::Decides::nat_tests), unfolding(crate::specs::Field::is_content))]
pub fn is_content(s: &[u8]) -> bool
    ensures { result ≡ is_content s.now }
{
    s.len() <= CONTENT_LIMIT && s.iter().all(|b| is_content_byte(*b))
}
