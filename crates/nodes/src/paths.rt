// What the texts of paths tell.
ghost use Rattle.std.specs.Prelude.{◌≡◌, length, take};
ghost use Rattle.buffers.specs.Text.{same_text};
ghost use Rattle.nodes.specs.NodeChecks.{text_reserved, text_within};

use buffers::same;

// Whether a path is `/` or `/rep`.
pub fn is_reserved(text: &[u8]) -> bool
    ensures { result ≡ text_reserved text.now }
{
    same(text, b"/") || same(text, b"/rep")
}

// Whether the first bytes of a text are another text.
fn begins(text: &[u8], front: &[u8]) -> bool
    ensures { result ≡ same_text (take (length front.now) text.now) front.now }
{
    text.starts_with(front)
}

// Whether a path is another or lies below it: everything lies below `/`, else its text is the other's, or goes on behind it with a `/`.
pub fn is_within(text: &[u8], above: &[u8]) -> bool
    ensures { result ≡ text_within above.now text.now }
{
    let n = above.len();
    n == 1 || (begins(text, above) && (text.len() == n || text[n] == b'/'))
}
