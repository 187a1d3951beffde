// Rows put into and taken out of a tree that lies as rows in preorder in a lent buffer of 59,394 bytes; docs/FORMAT.md has the layout.
#![tactic(auto)]

mod rows;

use accounts::{Gid, Uid};
pub use rows::{plant, put_child, put_rows, take_rows, write_head};
use tree::Kind;

// A new node, without tag and content.
#[derive(Clone, Copy)]
pub struct Fresh {
    pub kind: Kind,
    pub owner: Uid,
    pub group: Gid,
    pub mode: u16,
    pub revision: u16,
}
