// Paths: their form, and their names one after another.
ghost use Rattle.std.specs.Prelude.{◌≡◌, ◌≤◌, length, option_copied};
ghost use Rattle.syntax.specs.Pieces.{pieces};
ghost use Rattle.syntax.specs.Form.{is_some};
ghost use Rattle.syntax.specs.Path.{some_names, path, typed_path, entry_path};
ghost use Rattle.syntax.specs.Parts.{next_name, behind_name, last_slash};

use crate::text::{is_name, piece_end};
use crate::{MOST_NAMES, Names};

// Whether a text is 1 to 6 names parted by `/`.
fn are_names(s: &[u8]) -> bool
    ensures { result ≡ is_some (some_names (pieces 47 s.now)) }
{
    let mut at = 0;
    for _count in 0..MOST_NAMES {
        let end = piece_end(s, at, b'/');
        if !is_name(&s[at..end]) {
            return false;
        }
        if end == s.len() {
            return true;
        }
        at = end + 1;
    }
    false
}

// Whether a text is a path: `/`, or 1 to 6 names each after a `/`.
pub fn is_path(s: &[u8]) -> bool
    ensures { result ≡ is_some (path s.now) }
{
    match s {
        [b'/'] => true,
        [b'/', names @ ..] => are_names(names),
        _ => false,
    }
}

// Whether a text is a path as it is typed: from `/`, or from the working directory.
pub fn is_typed_path(s: &[u8]) -> bool
    ensures { result ≡ is_some (typed_path s.now) }
{
    match s {
        [] => false,
        [b'/', ..] => is_path(s),
        _ => are_names(s),
    }
}

// Whether a text is an entry path: a path of at least two names, the first `rep`.
pub fn is_entry_path(s: &[u8]) -> bool
    ensures { result ≡ is_some (entry_path s.now) }
{
    // Byte by byte, since every call asks this of every tag: to compare slices is a call, which takes longer.
    match s {
        [b'/', b'r', b'e', b'p', b'/', _, ..] => are_names(&s[1..]),
        _ => false,
    }
}

// Where the last `/` of a text is, or 0 where there is none.
pub fn last_slash(path: &[u8]) -> usize
    ensures { (result ≡ last_slash path.now) × (result ≤ length path.now) }
{
    for i in (0..path.len()).rev() {
        if path[i] == b'/' {
            return i;
        }
    }
    0
}

impl<'a> Names<'a> {
    // The names of a path that has its form, from the first on.
    pub fn of(path: &'a [u8]) -> Names<'a>
        ensures first { result.at ≡ 1 }
        ensures path { result.path ≡ path.entry }
    {
        Names { path, at: 1 }
    }

    // The next name, if any is left.
    pub fn next(&mut self) -> Option<&'a [u8]>
        ensures name { option_copied result ≡ next_name self.old.path.now self.old.at }
        ensures path { self.new.path ≡ self.old.path }
        ensures rest { self.new.at ≡ behind_name self.old.path.now self.old.at }
    {
        if self.path.len() <= self.at {
            return None;
        }
        let start = self.at;
        let end = piece_end(self.path, start, b'/');
        self.at = end + 1;
        Some(&self.path[start..end])
    }
}
