// The order of the rows.
ghost use Rattle.std.specs.Prelude.{◌≡◌, [], true, ◌-◌, ◌≤◌, ◌<◌};
ghost use Rattle.buffers.specs.Text.{precedes};
ghost use Rattle.buffers.specs.Fields.{is_filled};
ghost use Rattle.tree.specs.Layout.{name_offset, name_width};
ghost use Rattle.tree.specs.RowAt.{row_count, row_bytes_at, row_at};
ghost use Rattle.tree.specs.TreeBytes.{HasRow, Sized};
ghost use Rattle.soundness.specs.Tests.{may_follow_at, rest_in_order};

use crate::row::{has_name, is_row};
use syntax::MOST_NAMES;
use tree::{FIRST, NAME, NAME_WIDTH, ROW, is_directory};

// Whether the name of a row comes before that of another in byte order. The fields are compared in place, and no end of a name
// is looked for: a zero, which ends a name, is less than every byte of one, so the first bytes that differ tell; a zero in both ends
// both names.
fn comes_before(tree: &[u8], i: usize, j: usize) -> bool
    requires has_row { HasRow tree.now i }
    requires has_row_2 { HasRow tree.now j }
    ensures { result ≡ precedes (row_at tree.now i).name (row_at tree.now j).name }
{
    let a = FIRST + ROW * i + NAME;
    let b = FIRST + ROW * j + NAME;
    for k in 0..NAME_WIDTH {
        let x = tree[a + k];
        let y = tree[b + k];
        if x != y {
            return x < y;
        }
        if x == 0 {
            return false;
        }
    }
    false
}

// Whether a row may follow the one before it, where the row at its depth last seen is given.
fn may_follow(tree: &[u8], i: usize, beside: usize) -> bool
    requires has_row { HasRow tree.now i }
    requires has_row_2 { HasRow tree.now beside }
    requires le_i { 1 ≤ i }
    requires i_bound { (row_at tree.now i).depth ≤ 6 }
    requires i_value { is_filled name_offset name_width (row_bytes_at tree.now i) ≡ true }
    ensures { result ≡ may_follow_at tree.now i beside }
{
    let depth = tree::depth_at(tree, i);
    let before = tree::depth_at(tree, i - 1);
    if depth == 0 || !has_name(tree, i) {
        return false;
    }
    if before < depth {
        return depth - before == 1 && is_directory(tree::kind_at(tree, i - 1));
    }
    comes_before(tree, beside, i)
}

// Whether the rows behind `/` are sound each and stand in order.
pub fn in_order(tree: &[u8], n: usize) -> bool
    requires sized { Sized tree.now }
    requires n_value { n ≡ row_count tree.now }
    requires tree_value { (row_at tree.now 0).depth ≡ 0 }
    ensures { result ≡ rest_in_order tree.now 1 [] (row_at tree.now 0).here.kind }
{
    let mut last: [usize; 7] = [0; 7];
    for i in 1..n {
        if !is_row(tree, i) {
            return false;
        }
        let depth = tree::depth_at(tree, i) as usize;
        if MOST_NAMES < depth {
            return false;
        }
        if !may_follow(tree, i, last[depth]) {
            return false;
        }
        last[depth] = i;
    }
    true
}
