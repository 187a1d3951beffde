// An argument written into the second text, behind the working directory where it is a short path.
ghost use Rattle.std.specs.Prelude.{◌≡◌, ◌+◌, ◌≤◌, length};
ghost use Rattle.buffers.specs.Over.{over, Wrote};
ghost use Rattle.syntax.specs.Parts.{Inside, span_text};
ghost use Rattle.whole_paths.specs.WholeText.{front_length, joined_text, argument_text, span_from};

use crate::kinds::{has_text, is_short};
use arguments::ArgumentKind;
use buffers::write;
use syntax::Span;

// How many bytes of a directory's text stand in front of a `/`: all, or none of `/` itself.
fn front_length(directory: &[u8]) -> usize
    ensures { result ≡ front_length directory.now }
{
    if directory.len() == 1 {
        return 0;
    }
    directory.len()
}

// Writes a short path behind the directory.
fn write_joined(directory: &[u8], s: &[u8], text: &mut [u8], at: usize) -> usize
    requires { at + length (joined_text directory.now s.now) ≤ length text.old }
    ensures { Wrote (joined_text directory.now s.now) text.old at text.new result }
{
    let n = front_length(directory);
    write(text, at, &directory[..n]);
    text[at + n] = b'/';
    write(text, at + n + 1, s);
    at + n + 1 + s.len()
}

// Writes an argument that has a text, and tells where it ends.
fn write_argument(
    directory: &[u8],
    kind: ArgumentKind,
    s: &[u8],
    text: &mut [u8],
    at: usize,
) -> usize
    requires { at + length (argument_text directory.now kind s.now) ≤ length text.old }
    ensures { Wrote (argument_text directory.now kind s.now) text.old at text.new result }
{
    if is_short(kind, s) {
        return write_joined(directory, s, text, at);
    }
    if has_text(kind) {
        write(text, at, s);
        return at + s.len();
    }
    at
}

// Writes the argument that is a part of a line, and tells which part of the text it is now.
pub fn place(
    directory: &[u8],
    line: &[u8],
    kind: ArgumentKind,
    span: Span,
    text: &mut [u8],
    at: usize,
) -> Span
    requires inside { Inside span line.now }
    requires span_in_bounds { at + length (argument_text directory.now kind (span_text line.now span)) ≤ length text.old }
    ensures value { result ≡ span_from at (argument_text directory.now kind (span_text line.now span)) }
    ensures text_after { text.new ≡ over at (argument_text directory.now kind (span_text line.now span)) text.old }
{
    let end = write_argument(directory, kind, span.of(line), text, at);
    Span { start: at, end }
}
