// The path of a row: the names of the rows last seen at each depth up to its own, each behind `/`. Rows stand in preorder,
// so one pass over the rows up to it finds them, and no row holds its path.
ghost use Rattle.std.specs.Prelude.{◌≡◌, ◌∷◌, ◌+◌, ◌≤◌, ◌<◌, length};
ghost use Rattle.syntax.specs.Path.{names_text, path_text};
ghost use Rattle.tree.specs.RowAt.{row_count, row_at};
ghost use Rattle.tree.specs.TreeBytes.{HasRow, Whole};
ghost use Rattle.listing.specs.RowListing.{path_seen, row_path, WroteMost, ToldRows, names_told, last_among};

use crate::fields::write_behind;
use tree::{depth_at, name_at};

// The row last seen at each depth up to a row; that of `/` where there is none.
fn last_rows(tree: &[u8], n: usize) -> [usize; 7]
    requires whole { Whole tree.now }
    requires n_bound { n < row_count tree.now }
    ensures { result ≡ last_among tree.now (n + 1) }
{
    let mut last: [usize; 7] = [0; 7];
    // Not `0..=n`, which leaves the proof a goal without a lasting name.
    for i in 0..n + 1 {
        let depth = depth_at(tree, i) as usize;
        last[depth] = i;
    }
    last
}

// Writes the name of a row behind `/`.
fn write_name(tree: &[u8], i: usize, answer: &mut [u8], at: usize) -> usize
    requires has_row { HasRow tree.now i }
    requires at_in_bounds { at + 9 ≤ length answer.old }
    ensures { WroteMost 9 (47 ∷ (row_at tree.now i).name) answer.old at answer.new result }
{
    write_behind(answer, at, b'/', name_at(tree, i))
}

// Writes the names of the rows that stand for the depths from 1 on.
fn write_names(tree: &[u8], last: [usize; 7], depth: usize, answer: &mut [u8]) -> usize
    requires told_rows { ToldRows tree.now last }
    requires depth_bound { depth ≤ 6 }
    requires in_bounds { 54 ≤ length answer.old }
    ensures { WroteMost 54 (names_text (path_seen (names_told tree.now last) depth)) answer.old 0 answer.new result }
{
    let mut end: usize = 0;
    for k in 0..depth {
        end = write_name(tree, last[k + 1], answer, end);
    }
    end
}

// Writes the path of a row in front of the answer.
pub fn write_path(tree: &[u8], n: usize, answer: &mut [u8]) -> usize
    requires whole { Whole tree.now }
    requires n_bound { n < row_count tree.now }
    requires in_bounds { 54 ≤ length answer.old }
    ensures { WroteMost 54 (path_text (row_path tree.now n)) answer.old 0 answer.new result }
{
    let depth = depth_at(tree, n) as usize;
    if depth == 0 {
        answer[0] = b'/';
        return 1;
    }
    let last = last_rows(tree, n);
    write_names(tree, last, depth, answer)
}
