// Command lines: the caller, the word, and the arguments of its form.
ghost use Rattle.std.specs.Prelude.{◌≡◌, ◌≤◌, length, drop};
ghost use Rattle.std.proofs.Math.Option.{some, map};
ghost use Rattle.syntax.specs.Pieces.{comma, pieces};
ghost use Rattle.line_fields.specs.FieldsRead.{FieldsInside, given};
ghost use Rattle.commands.specs.Command.{line as line_of_text};
ghost use Rattle.commands.specs.Parsed.{line_with, parsed, ReadIn, command_of, command_from};

use crate::shapes::numbers_at;
use crate::words::word_of;
use crate::{CommandLine, Typed, Word};
use accounts::Uid;
use line_fields::{Fields, fields_at, first_field};
use syntax::between;

// The line of a caller and a word with the arguments of its shape, which are not too many.
fn with_arguments(line: &[u8], caller: Uid, f: Fields, word: Word) -> Option<CommandLine>
    requires fields_inside { FieldsInside f line.now }
    requires count_bound { f.count ≤ 3 }
    ensures result_value { parsed line.now result ≡ map some (line_with caller (command_from word (given line.now f))) }
    ensures read_in { ReadIn line.now result }
{
    let shape = word.shape();
    let (first, second, third) = numbers_at(line, f, shape)?;
    let typed = Typed {
        word,
        shape,
        fields: f,
        first,
        second,
        third,
    };
    Some(CommandLine { caller, typed })
}

// The line of a caller and the command whose word starts at a place.
fn command_at(line: &[u8], caller: Uid, at: usize) -> Option<CommandLine>
    requires { at ≤ length line.now }
    ensures result_value { parsed line.now result ≡ map some (line_with caller (command_of (pieces comma (drop at line.now)))) }
    ensures read_in { ReadIn line.now result }
{
    let f = fields_at(line, at);
    if 3 < f.count {
        return None;
    }
    let word = word_of(f.word.of(line))?;
    with_arguments(line, caller, f, word)
}

// A command line of any bytes, where it has a listed form.
pub fn parse(line: &[u8]) -> Option<CommandLine>
    ensures result_value { parsed line.now result ≡ map some (line_of_text line.now) }
    ensures read_in { ReadIn line.now result }
{
    let u = first_field(line);
    if u.last {
        return None;
    }
    let n = between(u.span().of(line), 0, 23)?;
    command_at(line, Uid((n % 256) as u8), u.end + 1)
}
