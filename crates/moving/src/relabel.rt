// The rows of a place under another name and at another depth.
ghost use Rattle.std.specs.Prelude.{◌≡◌, ◌*◌, ◌≤◌, ◌<◌, length};
ghost use Rattle.tree.specs.Layout.{row_width, name_width};
ghost use Rattle.moving.specs.Relabel.{shifted, depths_shifted, relabelled};

use buffers::write_padded;
use tree::{NAME, NAME_WIDTH, ROW};

// A depth that is counted from a new one instead of an old one. Depths are bytes and wrap, whatever they are: a row of a place is
// then as far below the new depth as it was below the old one.
fn shift(depth: u8, old: u8, new: u8) -> u8
    ensures { result ≡ shifted old new depth }
{
    depth.wrapping_add(new).wrapping_sub(old)
}

// Counts the depths of n rows from a new one instead of an old one.
fn shift_depths(rows: &mut [u8], n: usize, old: u8, new: u8)
    requires { row_width * n ≤ length rows.old }
    ensures { rows.new ≡ depths_shifted old new 0 n rows.old }
{
    for i in 0..n {
        rows[ROW * i] = shift(rows[ROW * i], old, new);
    }
}

// Gives n rows that begin with that of a place another depth, and the place another name.
pub fn relabel(rows: &mut [u8], n: usize, depth: u8, name: &[u8])
    requires n_nonzero { 0 < n }
    requires n_in_bounds { row_width * n ≤ length rows.old }
    requires name_len_bound { length name.now ≤ name_width }
    ensures { rows.new ≡ relabelled n depth name.now rows.old }
{
    let old = rows[0];
    shift_depths(rows, n, old, depth);
    write_padded(rows, NAME, NAME_WIDTH, name);
}
