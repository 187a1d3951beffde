// The copies of an entry and of all below it that may be read, written as rows into a buffer of their own. A copy is the
// original's row with head and tag written over, for the first the name too: one move of 227 bytes, instead of a row filled
// up and then written again. So a row that is copied is one of a well-formed tree, whose bytes are those of its node.
ghost use Rattle.std.specs.Prelude.{◌≡◌, suc, ◌+◌, ◌≤◌, ◌<◌, length};
ghost use Rattle.tree.specs.Layout.{row_start, name_width};
ghost use Rattle.tree.specs.RowAt.{row_at};
ghost use Rattle.tree.specs.TreeBytes.{HasRow};
ghost use Rattle.copying.specs.Copying.{copy_mode};
ghost use Rattle.copying.specs.CopyRows.{deepest, most_levels, HoldsRow, row_put, handed_row, Spelled, child_row, children, alone, Job, JobWritten, Written, EntryJob, subtree_rows, first_row, entry_rows};

use crate::{Copier, FirstCopy};
use accounts::{Gid, Uid};
use buffers::{write, write_padded};
use edits::{Fresh, write_head};
use node_fields::{set_tag, set_tag_below};
use syntax::MOST_NAMES;
use tree::{
    FIRST, Kind, NAME, NAME_WIDTH, ROW, depth_at, kind_at, name_at, revision_at, subtree_end,
};
use walks::readable_at;

// The copy of a file is 0600, of a directory 0700.
fn copy_mode(kind: Kind) -> u16
    ensures { result ≡ copy_mode kind }
{
    match kind {
        Kind::File => 0o600,
        Kind::Directory => 0o700,
    }
}

// Copies the bytes of the row at `at` to row `to`.
fn copy_bytes(tree: &[u8], at: usize, out: &mut [u8], to: usize)
    requires holds_row { HoldsRow tree.now at }
    requires has_row { HasRow out.old to }
    ensures { out.new ≡ row_put out.old to (row_at tree.now at) }
{
    let start = FIRST + ROW * at;
    write(out, FIRST + ROW * to, &tree[start..start + ROW]);
}

// Writes the row at `at` as row `to`, at another depth and with its node handed over. The tag is still the original's: each copy gets one of its own.
fn hand_over(tree: &[u8], at: usize, owner: Uid, group: Gid, out: &mut [u8], to: usize, depth: u8)
    requires holds_row { HoldsRow tree.now at }
    requires has_row { HasRow out.old to }
    ensures { out.new ≡ row_put out.old to (handed_row depth owner group (row_at tree.now at)) }
{
    copy_bytes(tree, at, out, to);
    let kind = kind_at(tree, at);
    let node = Fresh {
        kind,
        owner,
        group,
        mode: copy_mode(kind),
        revision: 0,
    };
    write_head(out, FIRST + ROW * to, depth, node);
}

// Writes the copy of the node at row `at` as row `to`, a child of the copy at row `above`.
fn copy_row(tree: &[u8], at: usize, who: Copier, out: &mut [u8], above: usize, to: usize)
    requires holds_row { HoldsRow tree.now at }
    requires has_row { HasRow out.old to }
    requires above_lt_to { above < to }
    requires above_bound { (row_at out.old above).depth < deepest }
    requires spelled { Spelled tree.now at out.old above }
    ensures { (g : Spelled tree.now at out.old above) → out.new ≡ row_put out.old to (child_row who g) }
{
    let depth = depth_at(out, above) + 1;
    let caller = who.caller;
    hand_over(tree, at, caller.account.uid, caller.primary, out, to, depth);
    let name = name_at(tree, at);
    set_tag_below(out, to, above, name, revision_at(tree, at));
}

// Copies a node and all below it that may be read; answers the row behind the last copy. One that may not be read is skipped with all below.
// Tree, copier and buffer go on one by one: of a struct lent as a whole, each clause would also have to say that tree and copier stay.
#[cycle(copy_children_copy_node)]
fn copy_node(
    tree: &[u8],
    at: usize,
    left: usize,
    who: Copier,
    out: &mut [u8],
    above: usize,
    to: usize,
) -> usize
    requires { Job alone tree.now out.old at above to (suc left) }
    ensures { JobWritten alone who tree.now out.old at above to (suc left) result out.new }
{
    if !readable_at(tree, at, who.reader) {
        return to;
    }
    copy_row(tree, at, who, out, above, to);
    copy_children(tree, at, left, who, out, to, to + 1)
}

// Copies the children of the node at row `at`, in turn, below the copy at row `above`.
#[cycle(copy_children_copy_node)]
fn copy_children(
    tree: &[u8],
    at: usize,
    left: usize,
    who: Copier,
    out: &mut [u8],
    above: usize,
    to: usize,
) -> usize
    requires { Job children tree.now out.old at above to left }
    ensures { JobWritten children who tree.now out.old at above to left result out.new }
{
    if left == 0 {
        return to;
    }
    let end = subtree_end(tree, at);
    let mut i = at + 1;
    let mut next = to;
    // a child is as many rows wide as it has below it, so this goes over no range
    while i < end {
        next = copy_node(tree, i, left - 1, who, out, above, next);
        i = subtree_end(tree, i);
    }
    next
}

// Writes the copy of an entry's own node as the first row, with its tag.
fn copy_first(tree: &[u8], at: usize, who: Copier, first: FirstCopy<'_>, out: &mut [u8])
    requires entry_job { EntryJob who tree.now at first.group first.path.now }
    requires has_row { HasRow out.old 0 }
    requires name_len_bound { length first.name.now ≤ name_width }
    ensures { (j : EntryJob who tree.now at first.entry.group first.entry.path.now)
        → out.new ≡ row_put out.old 0 (first_row j first.entry.depth first.entry.name.now) }
{
    let owner = who.caller.account.uid;
    hand_over(tree, at, owner, first.group, out, 0, first.depth);
    write_padded(out, FIRST + NAME, NAME_WIDTH, first.name);
    set_tag(out, 0, first.path, revision_at(tree, at));
}

// The copies of an entry; answers how many.
pub fn copy_entry(
    tree: &[u8],
    at: usize,
    who: Copier,
    first: FirstCopy<'_>,
    out: &mut [u8],
) -> usize
    requires entry_job { EntryJob who tree.now at first.group first.path.now }
    requires at_in_bounds { row_start (subtree_rows tree.now at) ≤ length out.old }
    requires most_levels_bound { first.depth + most_levels ≤ deepest }
    requires name_len_bound { length first.name.now ≤ name_width }
    ensures { (j : EntryJob who tree.now at first.entry.group first.entry.path.now)
        → Written out.old 0 (entry_rows j first.entry.depth first.entry.name.now) result out.new }
{
    copy_first(tree, at, who, first, out);
    // a path has no more names, so there are no more levels below an entry
    copy_children(tree, at, MOST_NAMES, who, out, 0, 1)
}
