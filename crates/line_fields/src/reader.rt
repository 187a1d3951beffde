// A reader that holds a line and its place in it, and what it reads of a line.
ghost use Rattle.std.specs.Prelude.{◌≡◌, ◌≤◌, length};
ghost use Rattle.syntax.specs.Parts.{field_at};
ghost use Rattle.line_fields.specs.FieldsRead.{place_after, fields_read};

use crate::parts::{fields_of, place_after};
use crate::{FieldReader, Fields};
use syntax::{Field, field_at};

impl<'a> FieldReader<'a> {
    // A reader at a place of a line.
    fn new(line: &'a [u8], at: usize) -> FieldReader<'a>
        ensures { (result.line ≡ line.entry) × (result.at ≡ at) }
    {
        FieldReader { line, at }
    }

    // The field at the place.
    fn next(self) -> Field
        requires { self.at ≤ length self.line.now }
        ensures { result ≡ field_at self.entry.line.now self.entry.at }
    {
        field_at(self.line, self.at)
    }

    // The reader that has moved on past a field.
    fn past(self, f: Field) -> FieldReader<'a>
        ensures { (result.line ≡ self.entry.line) × (result.at ≡ place_after self.entry.line.now f) }
    {
        FieldReader {
            line: self.line,
            at: place_after(self.line, f),
        }
    }
}

// The first field of a line.
pub fn first_field(line: &[u8]) -> Field
    ensures { result ≡ field_at line.now 0 }
{
    FieldReader::new(line, 0).next()
}

// The four fields of a line from a place on.
pub fn fields_at(line: &[u8], at: usize) -> Fields
    requires { at ≤ length line.now }
    ensures { result ≡ fields_read line.now at }
{
    let mut r = FieldReader::new(line, at);
    let word = r.next();
    r = r.past(word);
    let first = r.next();
    r = r.past(first);
    let second = r.next();
    r = r.past(second);
    let third = r.next();
    fields_of(word, first, second, third)
}
