// A setup text made the store that it says, line by line. It is read into the header of that store, a lent buffer whose
// bytes are canonical: so every byte is said after each line, while a struct that holds the setup would be copied at each.
#![tactic(auto)]

mod directories;
mod header_values;
mod line;
mod making;
mod opening;

pub use making::make_store;
pub use opening::{begin_store, setup_line};

// What a line of a setup text that is not wrong comes to: it fits and is of this kind (p, g, r, l: 0 to 3), or it is `end`. The
// kind is a number, since `setup_from` and `next` of `agenda`, which hand it on, promise what they do of any number.
#[derive(Clone, Copy, PartialEq, Eq)]
pub enum LineRead {
    More(u8),
    End,
}

// The number, from 1, of the first wrong line of a setup text.
#[derive(Clone, Copy, PartialEq, Eq)]
pub struct WrongLine(pub usize);
