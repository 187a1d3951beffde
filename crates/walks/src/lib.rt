// What is read at the rows of a tree: the access test, what lies below, and the walks along a path.
#![tactic(auto)]

mod access;
mod along;
mod below;

pub use access::{may_at, owns_at, readable_at};
pub use along::{parent_walk, walk};
pub use below::{child_names, has_children, height_below};

// Where a walk came to: the row of the place and that of the directory above it.
#[derive(Clone, Copy, PartialEq, Eq, Debug)]
pub struct Spot {
    pub row: usize,
    pub above: usize,
}
