// Bytes in a lent buffer: compared, read as numbers and padded texts, written, moved and cleared. Nothing here knows what they are for.
#![tactic(auto)]

mod fields;
mod texts;
mod writes;

pub use fields::{is_zero, number, text};
pub use texts::same;
pub use writes::{clear, move_bytes, write, write_number, write_padded};
