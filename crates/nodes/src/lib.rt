// The shell commands that make, remove and move nodes.
#![tactic(auto)]

mod making;
mod moves;
mod paths;
mod removing;

pub use making::create;
pub use moves::mv;
pub use removing::rm;

// What a move comes to: a row goes where nothing stands, or over the file of another row; a file onto itself stays.
#[derive(Clone, Copy, PartialEq, Eq, Debug)]
enum Move {
    Into { row: usize },
    Onto { row: usize, target: usize },
    Itself,
}
