// What the reader does with plain values: the next place, and the fields put together.
ghost use Rattle.std.specs.Prelude.{◌≡◌};
ghost use Rattle.line_fields.specs.FieldsRead.{place_after, behind_word, fields_of};

use crate::Fields;
use syntax::Field;

// Where the line goes on after a field: behind its comma, or at the line's end where none follows.
pub fn place_after(line: &[u8], f: Field) -> usize
    ensures { result ≡ place_after line.now f }
{
    if f.end < line.len() {
        return f.end + 1;
    }
    line.len()
}

// How many fields come behind the first of four, or 4 where the fourth is not the last.
fn behind_word(word: Field, first: Field, second: Field, third: Field) -> usize
    ensures { result ≡ behind_word word first second third }
{
    if word.last {
        return 0;
    }
    if first.last {
        return 1;
    }
    if second.last {
        return 2;
    }
    if third.last {
        return 3;
    }
    4
}

// The four fields of a line that were read one after another.
pub fn fields_of(word: Field, first: Field, second: Field, third: Field) -> Fields
    ensures { result ≡ fields_of word first second third }
{
    let count = behind_word(word, first, second, third);
    Fields {
        word: word.span(),
        first: first.span(),
        second: second.span(),
        third: third.span(),
        count,
    }
}
