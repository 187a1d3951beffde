// A place moved with all below it: its rows are held in a buffer, taken out, and put in under the new name and at the new
// depth. The room is found again once they are out: where rows then stand is known by the laws of that search, and needs no
// arithmetic of its own.
ghost use Rattle.std.specs.Prelude.{◌≡◌, ◌+◌, ◌*◌, ◌≤◌, ◌<◌, length, drop};
ghost use Rattle.std.proofs.Math.Seq.{paste};
ghost use Rattle.tree.specs.Layout.{row_width, row_start, most_rows};
ghost use Rattle.tree.specs.RowScan.{end_of_subtree};
ghost use Rattle.tree.specs.Encoding.{encode_tree};
ghost use Rattle.tree.specs.RowAt.{row_count, all_rows};
ghost use Rattle.tree.specs.TreeBytes.{Stretch};
ghost use Rattle.edits.specs.Changes.{rows_taken};
ghost use Rattle.moving.specs.Moving.{Vacant, relabelled_for, filled, Movable, moved, buffer_after};

use crate::relabel::relabel;
use accounts::{Account, Groups, Uid};
use buffers::write;
use edits::{put_rows, take_rows};
use gaps::{last_name, room_for};
use tree::{FEW_ROWS, FIRST, HALF_ROWS, MANY_ROWS, MOST_ROWS, ROW, SOME_ROWS, subtree_end};

// The bytes of the arrays that hold rows on the way.
const FEW_WIDTH: usize = ROW * FEW_ROWS;

const SOME_WIDTH: usize = ROW * SOME_ROWS;

const MANY_WIDTH: usize = ROW * MANY_ROWS;

const HALF_WIDTH: usize = ROW * HALF_ROWS;

const ALL_WIDTH: usize = ROW * MOST_ROWS;

// Takes n rows out into a buffer.
fn take_held(tree: &mut [u8], at: usize, n: usize, held: &mut [u8])
    requires stretch { Stretch tree.old at n }
    requires n_in_bounds { row_width * n ≤ length held.old }
    ensures tree_after { tree.new ≡ rows_taken tree.old at n }
    ensures held_after { held.new ≡ paste held.old 0 (drop (row_start at) tree.old) (row_width * n) }
{
    let start = FIRST + ROW * at;
    write(held, 0, &tree[start..start + ROW * n]);
    take_rows(tree, at, n);
}

// Puts n rows of a buffer that begin with that of a place in at a path where nothing stands, with its name and depth. Root finds the room:
// it may write in every directory.
fn put_held(tree: &mut [u8], to: &[u8], n: usize, held: &mut [u8])
    requires vacant { Vacant tree.old to.now }
    requires n_nonzero { 0 < n }
    requires n_bound { row_count tree.old + n ≤ most_rows }
    requires n_in_bounds { row_width * n ≤ length held.old }
    ensures tree_after { (v : Vacant tree.old to.now) → tree.new ≡ filled v n held.new }
    ensures held_after { (v : Vacant tree.old to.now) → held.new ≡ relabelled_for v n held.old }
{
    let root = Account {
        uid: Uid(0),
        groups: Groups(0),
    };
    if let Ok(gap) = room_for(tree, root, to) {
        relabel(held, n, gap.depth, last_name(to));
        put_rows(tree, gap.at, n, held);
    }
}

// Moves the place at a row, whose rows are n, by a buffer that holds them on the way.
fn move_by(tree: &mut [u8], at: usize, n: usize, to: &[u8], held: &mut [u8])
    requires movable { Movable tree.old at to.now }
    requires n_value { at + n ≡ end_of_subtree (all_rows tree.old) at }
    requires n_in_bounds { row_width * n ≤ length held.old }
    ensures tree_after { (m : Movable tree.old at to.now) → tree.new ≡ encode_tree (moved m) }
    ensures held_after { (m : Movable tree.old at to.now) → held.new ≡ buffer_after m held.old }
{
    take_held(tree, at, n, held);
    put_held(tree, to, n, held);
}

// Moves the place at a row, whose rows are n, by an array of a width that holds them on the way.
fn move_by_array<const WIDTH: usize>(tree: &mut [u8], at: usize, n: usize, to: &[u8])
    requires movable { Movable tree.old at to.now }
    requires n_value { at + n ≡ end_of_subtree (all_rows tree.old) at }
    requires n_in_bounds { row_width * n ≤ WIDTH }
    requires width_bound { WIDTH ≤ row_width * most_rows }
    ensures { (m : Movable tree.old at to.now) → tree.new ≡ encode_tree (moved m) }
{
    let mut held = [0u8; WIDTH];
    move_by(tree, at, n, to, &mut held);
}

// Moves the place at a row with all below it to a path where nothing stands, by the smallest array that holds its rows: each is
// cleared first, and to clear one for all rows takes longer than to move few.
pub fn move_place(tree: &mut [u8], at: usize, to: &[u8])
    requires { Movable tree.old at to.now }
    ensures { (m : Movable tree.old at to.now) → tree.new ≡ encode_tree (moved m) }
{
    let n = subtree_end(tree, at) - at;
    match n {
        ..=FEW_ROWS => move_by_array::<FEW_WIDTH>(tree, at, n, to),
        ..=SOME_ROWS => move_by_array::<SOME_WIDTH>(tree, at, n, to),
        ..=MANY_ROWS => move_by_array::<MANY_WIDTH>(tree, at, n, to),
        ..=HALF_ROWS => move_by_array::<HALF_WIDTH>(tree, at, n, to),
        _ => move_by_array::<ALL_WIDTH>(tree, at, n, to),
    }
}
