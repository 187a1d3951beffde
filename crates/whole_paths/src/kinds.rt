// Which arguments are paths, which have a text, and which paths are short or too deep.
ghost use Rattle.std.specs.Prelude.{◌≡◌, Bool};
ghost use Rattle.buffers.specs.Text.{Text};
ghost use Rattle.syntax.specs.Path.{begins_with_slash};
ghost use Rattle.commands.specs.Parsed.{TypedRead};
ghost use Rattle.whole_paths.specs.WholeText.{is_path_kind, has_text, is_short, is_deep, any_argument, any_short, ArgumentsInside};

use arguments::ArgumentKind;
use commands::Typed;
use syntax::is_path;

// Whether an argument of this kind is a path, which may be short; an entry path is always whole.
fn is_path_kind(kind: ArgumentKind) -> bool
    ensures { result ≡ is_path_kind kind }
{
    matches!(kind, ArgumentKind::Path)
}

// Whether one of this kind is a text; any other is its number.
pub fn has_text(kind: ArgumentKind) -> bool
    ensures { result ≡ has_text kind }
{
    match kind {
        ArgumentKind::Path | ArgumentKind::Entry | ArgumentKind::Password | ArgumentKind::Content =>
            true,
        _ => false,
    }
}

// Whether a text begins with `/`.
fn begins_with_slash(s: &[u8]) -> bool
    ensures { result ≡ begins_with_slash s.now }
{
    if s.len() == 0 {
        return false;
    }
    s[0] == b'/'
}

// Whether an argument is a short path.
pub fn is_short(kind: ArgumentKind, s: &[u8]) -> bool
    ensures { result ≡ is_short kind s.now }
{
    if is_path_kind(kind) {
        return !begins_with_slash(s);
    }
    false
}

// Whether an argument is a path that does not read as one: behind the directory it has too many names.
pub fn is_deep(kind: ArgumentKind, s: &[u8]) -> bool
    ensures { result ≡ is_deep kind s.now }
{
    if is_path_kind(kind) {
        return !is_path(s);
    }
    false
}

// Whether one of a command's arguments passes a test of its kind and text.
pub fn any_found<F: Fn(ArgumentKind, &[u8]) -> bool>(test: F, text: &[u8], typed: Typed) -> bool
    requires inside { ArgumentsInside text.now typed }
    requires callable { F.IsAlwaysCallable test }
    ensures { (passes : ArgumentKind → Text → Bool) → ((k : ArgumentKind) (x : _) (r : Bool) → F.post test k x r → r ≡ passes k x.now) → result ≡ any_argument passes text.now typed }
{
    let shape = typed.shape;
    let f = typed.fields;
    if test(shape.first, f.first.of(text)) {
        return true;
    }
    if test(shape.second, f.second.of(text)) {
        return true;
    }
    test(shape.third, f.third.of(text))
}

// Whether an argument of a command is a short path.
pub fn any_short(line: &[u8], typed: Typed) -> bool
    requires { TypedRead line.now typed }
    ensures { result ≡ any_short line.now typed }
{
    any_found(is_short, line, typed)
}
