// The repository command `co`: copies of an entry in a directory of the person's.
#![tactic(auto)]

mod command;
mod decision;

pub use command::co;
