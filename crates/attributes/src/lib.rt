// The shell commands that read or change one place of a tree: `read`, `write`, `chmod`, `chgrp`, `chown`; and the checks of `cd`.
#![tactic(auto)]

mod changes;
mod checks;
mod reading;

use accounts::Gid;
pub use changes::{chgrp, chmod, chown, write};
pub use checks::may_do;
pub use reading::read;

// What is to be done at a place, with what its tests ask about: the mode or the group to be given. It is an enum and no closure, since
// the laws of the checks go by its cases.
#[derive(Clone, Copy, PartialEq, Eq, Debug)]
pub enum Deed {
    Read,
    Write,
    Chmod(u16),
    Chgrp(Gid),
    Chown,
    Enter,
}
