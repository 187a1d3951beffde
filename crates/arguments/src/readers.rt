// One argument read by its kind.
ghost use Rattle.std.specs.Prelude.{◌≡◌};
ghost use Rattle.buffers.specs.Options.{option_of};
ghost use Rattle.syntax.specs.Field.{plain_mode};
ghost use Rattle.syntax.specs.Parts.{Inside, span_text};
ghost use Rattle.arguments.specs.Kinds.{zero_if, number_in};

use crate::ArgumentKind;
use syntax::{Span, between, has_set_gid, is_content, is_entry_path, is_name, is_typed_path, mode};

// The mode of a new file: one without set-gid.
fn plain_mode(s: &[u8]) -> Option<u16>
    ensures { option_of result ≡ plain_mode s.now }
{
    mode(s).filter(|m| !has_set_gid(*m))
}

// The number of an argument that has none, where it has its form.
fn zero_if(formed: bool) -> Option<u16>
    ensures { option_of result ≡ zero_if formed }
{
    formed.then_some(0)
}

// The number of an argument of a kind that a part of the line is, where it has that form.
pub fn argument_at(line: &[u8], s: Span, kind: ArgumentKind) -> Option<u16>
    requires { Inside s line.now }
    ensures { option_of result ≡ number_in kind (span_text line.now s) }
{
    let argument = s.of(line);
    match kind {
        ArgumentKind::Path => zero_if(is_typed_path(argument)),
        ArgumentKind::Entry => zero_if(is_entry_path(argument)),
        ArgumentKind::Mode => mode(argument),
        ArgumentKind::Plain => plain_mode(argument),
        ArgumentKind::Uid => between(argument, 0, 23),
        ArgumentKind::Gid => between(argument, 0, 24),
        ArgumentKind::Role => between(argument, 0, 7),
        ArgumentKind::Password => zero_if(is_name(argument)),
        ArgumentKind::Content => zero_if(is_content(argument)),
        ArgumentKind::Absent => Some(0),
    }
}
