// The repository commands on entries.
#![tactic(auto)]

mod filing;
mod removal;
mod tagged;

pub use filing::{commit_at, up};
pub use removal::del;

// The rows of a working file, of the entry that its tag leads to, and of the directory above that.
#[derive(Clone, Copy, PartialEq, Eq, Debug)]
pub struct LinkRows {
    pub working: usize,
    pub entry: usize,
    pub above: usize,
}
