// The commands on entries, in a session, on a store's bytes.
#![tactic(auto)]

mod command;
mod lent;

pub use command::entry_command;
