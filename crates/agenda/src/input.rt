// The next line of the program's input.
ghost use Rattle.std.specs.Prelude.{◌≡◌};
ghost use Rattle.agenda.specs.InputLines.{next_line};

use crate::NextLine;
use syntax::piece_end;

// The next line of a text from a place on, with whether the input ends where the text does.
pub fn next_line(text: &[u8], at: usize, ended: bool) -> NextLine
    ensures { result ≡ next_line text.now at ended }
{
    if at < text.len() {
        let end = piece_end(text, at, b'\n');
        if end < text.len() {
            NextLine::Line { end }
        } else if ended {
            NextLine::Last
        } else {
            NextLine::More
        }
    } else if ended {
        NextLine::Nothing
    } else {
        NextLine::More
    }
}
