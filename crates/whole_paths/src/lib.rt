// Short paths made whole: a typed command's arguments stand once more in a second text, where the working directory is in front of each
// short path.
#![tactic(auto)]

mod kinds;
mod making;
mod writing;

pub use kinds::any_short;
pub use making::make_whole;
use store::DIRECTORY;

// The room of one argument: the longest directory, a `/` and the longest short path.
pub const PART: usize = DIRECTORY + DIRECTORY;

// That of the three arguments.
pub const TEXT: usize = PART + PART + PART;
