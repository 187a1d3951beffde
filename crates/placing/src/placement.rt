// What is left of `co` behind its first checks: the copies are made in a buffer and judged there, and then put in. So they
// are of the tree "as it stood before the command", and 19 and 10 are decided before anything changes. The buffer has room
// for as many rows as the entry has with all below it (`subtree_rows`), since there are no more copies.
ghost use Rattle.std.specs.Prelude.{◌≡◌, ◌≤◌, length, drop};
ghost use Rattle.tree.specs.Layout.{row_start};
ghost use Rattle.tree.specs.TreeBytes.{Insertable};
ghost use Rattle.edits.specs.Changes.{rows_put};
ghost use Rattle.copying.specs.CopyRows.{subtree_rows};
ghost use Rattle.placing.specs.Placing.{Checkout, steps_left, Prepared, CheckedOut, CopiesLaid};

use crate::Site;
use copying::{Copier, FirstCopy, copy_entry, deepest_copy};
use edits::put_rows;
use gaps::{last_name, new_group};
use shell::Answer;
use syntax::MOST_NAMES;
use tree::{Cause, FIRST, MOST_ROWS, count};

// Makes the copies in a buffer, and tells how many: too deep 19, then too many 10.
fn copies_for(
    tree: &[u8],
    who: Copier,
    site: Site,
    entry: &[u8],
    to: &[u8],
    out: &mut [u8],
) -> Result<usize, Cause>
    requires checkout { Checkout who tree.now entry.now to.now site }
    requires filed_in_bounds { row_start (subtree_rows tree.now site.filed) ≤ length out.old }
    ensures prepared { (j : Checkout who tree.now entry.now to.now site)
        → Prepared (steps_left j) tree.now out.new site.at result }
    ensures copies_laid { CopiesLaid who tree.now entry.now to.now site out.old out.new }
{
    let first = FirstCopy {
        group: new_group(tree, site.row, who.caller),
        depth: site.depth,
        name: last_name(to),
        path: entry,
    };
    let n = copy_entry(tree, site.filed, who, first, out);
    if deepest_copy(out, n) as usize > MOST_NAMES {
        return Err(Cause::TooDeep);
    }
    if count(tree) + n > MOST_ROWS {
        return Err(Cause::Full);
    }
    Ok(n)
}

// Puts the n rows that stand behind the first two bytes of a buffer in before the row at an index.
fn put_copies(tree: &mut [u8], at: usize, n: usize, out: &[u8])
    requires insertable { Insertable tree.old at n }
    requires n_in_bounds { row_start n ≤ length out.now }
    ensures { tree.new ≡ rows_put tree.old at n (drop 2 out.now) }
{
    put_rows(tree, at, n, &out[FIRST..]);
}

// What is left of the command behind its first checks, by a buffer for the copies.
pub fn place_copies(
    tree: &mut [u8],
    who: Copier,
    site: Site,
    entry: &[u8],
    to: &[u8],
    out: &mut [u8],
) -> Answer
    requires checkout { Checkout who tree.old entry.now to.now site }
    requires filed_in_bounds { row_start (subtree_rows tree.old site.filed) ≤ length out.old }
    ensures checked_out { CheckedOut who tree.old entry.now to.now site result tree.new }
    ensures copies_laid { CopiesLaid who tree.old entry.now to.now site out.old out.new }
{
    let n = copies_for(tree, who, site, entry, to, out)?;
    put_copies(tree, site.at, n, out);
    Ok(None)
}
