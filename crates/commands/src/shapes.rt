// The arguments of a command, read by the kinds of its shape.
ghost use Rattle.std.specs.Prelude.{◌≡◌};
ghost use Rattle.line_fields.specs.FieldsRead.{FieldsInside};
ghost use Rattle.commands.specs.Parsed.{numbers_in};

use crate::Shape;
use arguments::argument_at;
use line_fields::Fields;

// The numbers of a command's arguments, where these are as many as its shape says and each has its form.
pub fn numbers_at(line: &[u8], f: Fields, shape: Shape) -> Option<(u16, u16, u16)>
    requires { FieldsInside f line.now }
    ensures { result ≡ numbers_in line.now f shape }
{
    if f.count != shape.count {
        return None;
    }
    let first = argument_at(line, f.first, shape.first)?;
    let second = argument_at(line, f.second, shape.second)?;
    let third = argument_at(line, f.third, shape.third)?;
    Some((first, second, third))
}
