// The copies of an entry, put in at a site that the first checks of `co` have found.
#![tactic(auto)]

mod placement;

pub use placement::place_copies;

// What is copied and where to: the row of the entry, and the gap for its copies, by the row of their directory, the row before which they
// go in, and their depth.
#[derive(Clone, Copy, PartialEq, Eq, Debug)]
pub struct Site {
    pub filed: usize,
    pub row: usize,
    pub at: usize,
    pub depth: u8,
}
