// The parts of command lines and of the setup text: fields, numbers, names and paths. Readers over a lent slice, answers by
// value, no copying; and numbers written as texts.
#![tactic(auto)]

mod numerals;
mod parts;
mod paths;
mod render;
mod text;

pub use numerals::{between, has_set_gid, mode};
pub use paths::{is_entry_path, is_path, is_typed_path, last_slash};
pub use render::{write_decimal, write_mode};
pub use text::{field_at, is_content, is_name, piece_end};

// A path has at most so many names.
pub const MOST_NAMES: usize = 6;

// A content has at most so many bytes.
pub const CONTENT_LIMIT: usize = 80;

// A part of a text: the bytes from start up to end.
#[derive(Clone, Copy, PartialEq, Eq)]
pub struct Span {
    pub start: usize,
    pub end: usize,
}

// A field of a line: where it starts and ends, and whether no comma follows it.
#[derive(Clone, Copy, PartialEq, Eq)]
pub struct Field {
    pub start: usize,
    pub end: usize,
    pub last: bool,
}

// The names of a path, and how far they have been read: the next one starts here.
#[derive(Clone, Copy)]
pub struct Names<'a> {
    pub path: &'a [u8],
    pub at: usize,
}
