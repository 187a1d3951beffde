// A parsed command carried out on a store's bytes.
#![tactic(auto)]

mod sessions_part;
mod store_part;

pub use store_part::run_command;
