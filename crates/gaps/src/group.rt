// The group of a new child.
ghost use Rattle.std.specs.Prelude.{◌≡◌};
ghost use Rattle.tree.specs.Node.{new_group};
ghost use Rattle.tree.specs.RowAt.{row_at};
ghost use Rattle.tree.specs.TreeBytes.{HasRow};

use accounts::{Caller, Gid};
use syntax::has_set_gid;
use tree::{group_at, mode_at};

// That of the directory if it has set-gid, else the caller's primary group.
pub fn new_group(tree: &[u8], row: usize, caller: Caller) -> Gid
    requires { HasRow tree.now row }
    ensures { result ≡ new_group caller (row_at tree.now row).here }
{
    if has_set_gid(mode_at(tree, row)) {
        return group_at(tree, row);
    }
    caller.primary
}
