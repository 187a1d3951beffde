// What the program does next, by what it has read of its input and how far it is, and what it prints for each call.
// `steps::next` keeps its path, since names that differ only in case, as `next` and `Next`, cannot stand in one module.
#![tactic(auto)]

mod asking;
mod input;
mod lines_ahead;
mod reports;
pub mod steps;

pub use asking::asked_by;
pub use lines_ahead::lines_from;
pub use reports::{after_print, goes_on, refuse, report};
pub use steps::{read_step, setup_from};

// The next line of what has been read.
#[derive(Clone, Copy)]
pub enum NextLine {
    // It ends at this byte 10.
    Line { end: usize },
    // It is all that is left: the input has ended.
    Last,
    // Where it ends has not been read.
    More,
    // The input has ended and nothing is left.
    Nothing,
}

// What the program is at: the setup, with the kind of its last line and how many there were, the command lines, or this line of the
// listing.
#[derive(Clone, Copy)]
pub enum Phase {
    Setup { kind: u8, lines: usize },
    Lines,
    Listing(usize),
}

// How far the program is in the window, the buffer that its input is read into.
#[derive(Clone, Copy)]
pub struct Place {
    // Which bytes are still to be handled.
    pub from: usize,
    pub to: usize,
    // Whether the input has ended.
    pub ended: bool,
    // Whether these bytes go on with a line that has been answered already, because it filled the window.
    pub passing: bool,
    pub phase: Phase,
}

// A call of the library: with a part of the window as a command line, or for a line of the listing.
#[derive(Clone, Copy)]
pub enum Call {
    Run { from: usize, end: usize },
    List { n: usize },
}

// What is to be done next.
#[derive(Clone, Copy)]
pub enum Next {
    // Read the line of the setup that ends at this byte 10, behind so many lines of which the last was of this kind.
    Line { end: usize, kind: u8, lines: usize },
    // The setup's next line, behind so many, is wrong: it is longer than any line may be, or the input has ended.
    Wrong { lines: usize },
    // Make a call and print what it tells; if the program goes on, it is from this place.
    Call { call: Call, then: Place },
    // Nothing is to be called: go on from this place.
    On(Place),
    // Read more of the input.
    Read,
    // All is done.
    Over,
}

// What a turn comes to. An enum of its own: as a Result of an Option the end would be `Ok(None)`, which says less, and nothing passes
// a failure on by `?`.
#[derive(Clone, Copy)]
pub enum Step {
    // There is more to do, from this place on.
    On(Place),
    // All is done.
    Ended,
    // A read or a print has failed.
    Failed,
}

// What the program's arguments ask for.
#[derive(Clone, Copy)]
pub enum Asked {
    // To run, as there are none.
    Run,
    // What it reads and prints.
    Help,
    // Nothing that it has.
    Wrong,
}
