// Copies of what may be read, for `co`.
#![tactic(auto)]

mod copies;
mod depths;

use accounts::{Account, Caller, Gid};
pub use copies::copy_entry;
pub use depths::deepest_copy;

// Who copies: the account that reads, and the caller whose the copies are.
#[derive(Clone, Copy)]
pub struct Copier {
    pub reader: Account,
    pub caller: Caller,
}

// What the copy of an entry's own node has that is not the original's: the group, the depth and the name of the place where it goes, and
// the tag, which is the entry's path.
#[derive(Clone, Copy)]
pub struct FirstCopy<'a> {
    pub group: Gid,
    pub depth: u8,
    pub name: &'a [u8],
    pub path: &'a [u8],
}
