// What the store's header tells: who calls, the sessions, the working directories, whether a login is granted, and which roles
// dominate which.
#![tactic(auto)]

mod callers;
mod directories;
mod grants;
mod roles;
mod sessions;

pub use callers::caller_of;
pub use directories::{directory_of, set_directory};
pub use grants::is_granted;
pub use roles::dominance_of;
pub use sessions::{login, logout, session_of, set_session};
