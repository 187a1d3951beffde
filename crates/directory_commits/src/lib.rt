// `commit` of a file or of a directory, on a store's bytes: the files below a directory are committed row by row.
#![tactic(auto)]

mod below;
mod command;
mod finding;
mod row;

pub use command::commit;
use entries::LinkRows;
pub use row::commit_step;
use tree::Cause;

// The row to go on at, and the rows that were linked where a file was committed, or why none was.
#[derive(Clone, Copy)]
pub struct Step {
    pub next: usize,
    pub filed: Result<LinkRows, Cause>,
}

// What `commit` is asked for: the row of a file, or of a directory that the person may read.
#[derive(Clone, Copy, PartialEq, Eq, Debug)]
pub enum Found {
    File(usize),
    Directory(usize),
}
