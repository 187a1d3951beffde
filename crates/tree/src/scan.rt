// A scan over the rows: where a subtree ends.
ghost use Rattle.std.specs.Prelude.{◌≡◌, ◌≤◌, ◌<◌};
ghost use Rattle.tree.specs.RowScan.{end_of_subtree};
ghost use Rattle.tree.specs.RowAt.{row_count, all_rows};
ghost use Rattle.tree.specs.TreeBytes.{Used};

use crate::rows::{count, depth_at};

// Where the rows of a place end: at the next row that is no deeper, or after the last.
pub fn subtree_end(tree: &[u8], at: usize) -> usize
    requires { Used tree.now at }
    ensures { (result ≡ end_of_subtree (all_rows tree.now) at) × (result ≤ row_count tree.now) }
{
    let n = count(tree);
    let depth = depth_at(tree, at);
    for i in at + 1..n {
        if depth_at(tree, i) <= depth {
            return i;
        }
    }
    n
}
