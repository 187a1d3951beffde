// A place of a tree moved with all below it.
#![tactic(auto)]

mod relabel;
mod subtree;

pub use subtree::move_place;
