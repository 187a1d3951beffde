// A line by its word and its arguments.
ghost use Rattle.std.specs.Prelude.{◌≡◌, List, ◌∷◌, ◌≤◌, ◌<◌, length, drop};
ghost use Rattle.std.proofs.Math.Option.{some, map};
ghost use Rattle.buffers.specs.Options.{option_of};
ghost use Rattle.buffers.specs.Text.{Text};
ghost use Rattle.syntax.specs.Parts.{Inside, part, span_text};
ghost use Rattle.lines.specs.SetupLines.{setup_line_of, setup_line};
ghost use Rattle.lines.specs.Line.{kind_form, line_form, two_texts, three_texts, both_between, line_told};

use crate::{LineKind, SetupLine};
use accounts::{Gid, Role, Uid};
use line_fields::fields_at;
use syntax::{Span, between, is_name};

// The kind of line that a word starts.
fn kind_of(word: &[u8]) -> Option<LineKind>
    ensures { (arguments : List Text) → setup_line_of (word.now ∷ arguments) ≡ line_form result arguments }
{
    match word {
        [b'p'] => Some(LineKind::Person),
        [b'g'] => Some(LineKind::Group),
        [b'r'] => Some(LineKind::Pair),
        [b'l'] => Some(LineKind::Grant),
        _ => None,
    }
}

// The numbers, from low to a bound each, that two parts are.
fn numbers_at(text: &[u8], a: Span, b: Span, low: u16, high1: u16, high2: u16) -> Option<(u8, u8)>
    requires inside { Inside a text.now }
    requires inside_2 { Inside b text.now }
    requires high1_bound { high1 < 256 }
    requires high2_bound { high2 < 256 }
    ensures { option_of result ≡ both_between low high1 high2 (span_text text.now a) (span_text text.now b) }
{
    let m = between(a.of(text), low, high1)?;
    let n = between(b.of(text), low, high2)?;
    Some(((m % 256) as u8, (n % 256) as u8))
}

// Two arguments after a word: the forms of `p`, `g` and `r`.
fn two_argument_line(text: &[u8], kind: LineKind, a: Span, b: Span) -> Option<SetupLine>
    requires inside { Inside a text.now }
    requires inside_2 { Inside b text.now }
    ensures { line_told text.now result ≡ map some (kind_form kind (two_texts text.now a b)) }
{
    match kind {
        LineKind::Person => {
            let (uid, gid) = numbers_at(text, a, b, 1, 15, 15)?;
            Some(SetupLine::Person {
                uid: Uid(uid),
                gid: Gid(gid),
            })
        }
        LineKind::Group => {
            let (uid, gid) = numbers_at(text, a, b, 1, 15, 15)?;
            Some(SetupLine::Group {
                uid: Uid(uid),
                gid: Gid(gid),
            })
        }
        LineKind::Pair => {
            let (senior, junior) = numbers_at(text, a, b, 0, 7, 7)?;
            Some(SetupLine::Pair {
                senior: Role(senior),
                junior: Role(junior),
            })
        }
        LineKind::Grant => None,
    }
}

// Three arguments after a word: the form of `l`.
fn three_argument_line(text: &[u8], kind: LineKind, a: Span, b: Span, c: Span) -> Option<SetupLine>
    requires inside { Inside a text.now }
    requires inside_2 { Inside b text.now }
    requires inside_3 { Inside c text.now }
    ensures { line_told text.now result ≡ map some (kind_form kind (three_texts text.now a b c)) }
{
    let LineKind::Grant = kind else {
        return None;
    };
    if !is_name(c.of(text)) {
        return None;
    }
    let (uid, role) = numbers_at(text, a, b, 0, 15, 7)?;
    Some(SetupLine::Grant {
        uid: Uid(uid),
        role: Role(role),
        password: c,
    })
}

// The line that starts at a place and ends where the text ends, if it has a form.
fn last_line(text: &[u8], at: usize) -> Option<SetupLine>
    requires { at ≤ length text.now }
    ensures { line_told text.now result ≡ map some (setup_line (drop at text.now)) }
{
    if 200 < text.len() - at {
        return None;
    }
    let f = fields_at(text, at);
    match f.count {
        2 => {
            let kind = kind_of(f.word.of(text))?;
            two_argument_line(text, kind, f.first, f.second)
        }
        3 => {
            let kind = kind_of(f.word.of(text))?;
            three_argument_line(text, kind, f.first, f.second, f.third)
        }
        _ => None,
    }
}

// The line from one place up to another, if it has a form.
pub fn line_at(text: &[u8], start: usize, end: usize) -> Option<SetupLine>
    requires start_le_end { start ≤ end }
    requires end_in_bounds { end ≤ length text.now }
    ensures { line_told text.now result ≡ map some (setup_line (part text.now start end)) }
{
    last_line(&text[..end], start)
}
