// A typed command with its arguments in the second text.
ghost use Rattle.std.specs.Prelude.{◌≡◌, length};
ghost use Rattle.commands.specs.Parsed.{TypedRead};
ghost use Rattle.tree.specs.TreeBytes.{PathText};
ghost use Rattle.whole_paths.specs.WholeText.{text_width, whole_typed, whole_text, whole_or_deep};

use crate::PART;
use crate::kinds::{any_found, is_deep};
use crate::writing::place;
use commands::Typed;
use line_fields::Fields;
use tree::Cause;

// Writes a command's arguments, each into its own room, and tells the command of which they are now.
fn write_arguments(directory: &[u8], line: &[u8], typed: Typed, text: &mut [u8]) -> Typed
    requires path_text { PathText directory.now }
    requires typed_read { TypedRead line.now typed }
    requires text_len { length text.old ≡ text_width }
    ensures value { result ≡ whole_typed directory.now line.now typed }
    ensures text_after { text.new ≡ whole_text directory.now line.now typed text.old }
{
    let word = typed.word;
    let shape = typed.shape;
    let f = typed.fields;
    let spelled = f.word;
    let count = f.count;
    let kind = shape.first;
    let first = place(directory, line, kind, f.first, text, 0);
    let kind = shape.second;
    let second = place(directory, line, kind, f.second, text, PART);
    let kind = shape.third;
    let third = place(directory, line, kind, f.third, text, PART + PART);
    let fields = Fields {
        word: spelled,
        first,
        second,
        third,
        count,
    };
    Typed {
        word,
        shape,
        fields,
        first: typed.first,
        second: typed.second,
        third: typed.third,
    }
}

// The typed command whose paths are whole in the text, unless one would be too deep.
pub fn make_whole(
    directory: &[u8],
    line: &[u8],
    typed: Typed,
    text: &mut [u8],
) -> Result<Typed, Cause>
    requires path_text { PathText directory.now }
    requires typed_read { TypedRead line.now typed }
    requires text_len { length text.old ≡ text_width }
    ensures value { result ≡ whole_or_deep directory.now line.now typed text.old }
    ensures text_after { text.new ≡ whole_text directory.now line.now typed text.old }
{
    let moved = write_arguments(directory, line, typed, text);
    if any_found(is_deep, text, moved) {
        return Err(Cause::TooDeep);
    }
    Ok(moved)
}
