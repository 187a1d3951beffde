// The fields of a line, parted by commas. A reader holds the line and its place; callers use the two functions with plain
// parameters above it.
#![tactic(auto)]

mod parts;
mod reader;

pub use reader::{fields_at, first_field};
use syntax::Span;

// A line, and the place in it that has been reached.
#[derive(Clone, Copy)]
pub struct FieldReader<'a> {
    pub line: &'a [u8],
    pub at: usize,
}

// A word and the fields behind it, of which there are as many as counted; 4 says that there are more than these three.
#[derive(Clone, Copy)]
pub struct Fields {
    pub word: Span,
    pub first: Span,
    pub second: Span,
    pub third: Span,
    pub count: usize,
}
