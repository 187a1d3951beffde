// What is printed for an answer, as functions on lent slices.
#![tactic(auto)]

mod replies;

pub use replies::{is_missing, number, write_listed, write_reply};
