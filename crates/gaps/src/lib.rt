// Where a new child of a directory stands.
#![tactic(auto)]

mod group;
mod room;

pub use group::new_group;
pub use room::{last_name, room_for};

// Where a new child may stand: its directory's row, the row it goes in before, and how deep.
#[derive(Clone, Copy, PartialEq, Eq, Debug)]
pub struct Gap {
    pub row: usize,
    pub at: usize,
    pub depth: u8,
}
