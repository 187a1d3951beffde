// The store: setup, registry and tree as bytes, and the initial tree.
#![tactic(auto)]

mod home;
mod initial;
mod layout;

use accounts::{Gid, Groups};
pub use home::home_path;
pub use initial::write_initial;
pub use layout::{
    DIRECTORIES, DIRECTORY, GRANT, GRANTS, HEADER, PAIR, PAIRS, PASSWORD, PASSWORD_WIDTH, SESSIONS,
    SLOT, SPARE, STORE,
};

// What an account's slot holds: a person's primary group and further groups; where the primary group is 0 it is no person's.
#[derive(Clone, Copy)]
pub struct Person {
    pub primary: Gid,
    pub further: Groups,
}
