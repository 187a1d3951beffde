// The library calls on a lent store: setup, command lines and the listing.
#![tactic(auto)]

mod lists;
mod runs;
mod sets;

pub use lists::listing;
pub use runs::run;
pub use sets::setup;

// An answer buffer has at least so many bytes.
const LEAST_ROOM: usize = 4096;
