// Whether a lent buffer holds a well-formed tree; docs/FORMAT.md has the layout.
#![tactic(auto)]

ghost use Rattle.std.specs.Prelude.{◌≡◌};
ghost use Rattle.syntax.specs.Form.{is_some};
ghost use Rattle.tree.specs.Encoding.{decode_tree};
ghost use Rattle.tree.specs.RowAt.{row_at};
ghost use Rattle.tree.specs.TreeBytes.{Wide};
ghost use Rattle.soundness.specs.Sound.{is_top_row};

mod order;
mod row;
mod zeros;

use order::in_order;
use row::is_row;
use tree::{FIRST, MOST_ROWS, ROW, TREE, is_directory};
pub use zeros::is_zero_in_blocks;

// Whether the first row is that of `/`.
fn is_top_row(tree: &[u8]) -> bool
    requires { Wide tree.now }
    ensures { result ≡ is_top_row (row_at tree.now 0) }
{
    tree::depth_at(tree, 0) == 0
        && tree::name_at(tree, 0).is_empty()
        && is_directory(tree::kind_at(tree, 0))
}

// Whether a buffer holds a well-formed tree.
pub fn holds_tree(tree: &[u8]) -> bool
    ensures { result ≡ is_some (decode_tree tree.now) }
{
    if tree.len() != TREE {
        return false;
    }
    let n = tree::count(tree);
    if n == 0 || MOST_ROWS < n {
        return false;
    }
    is_row(tree, 0)
        && is_top_row(tree)
        && in_order(tree, n)
        && is_zero_in_blocks(tree, FIRST + ROW * n, TREE)
}
