// The command `co` on a tree's bytes. There are no more copies than the entry has rows with all below it: by how many these are, the
// copies are made in an array for few, some, many, half or all of the rows of a tree.
ghost use Rattle.std.specs.Prelude.{◌≤◌};
ghost use Rattle.tree.specs.Layout.{row_start, tree_width};
ghost use Rattle.tree.specs.TreeBytes.{Whole, PathText, EntryPathText};
ghost use Rattle.copying.specs.CopyRows.{subtree_rows};
ghost use Rattle.shell.specs.CommandBytes.{FollowsSilently};
ghost use Rattle.placing.specs.Placing.{Checkout, CheckedOut};
ghost use Rattle.checkout.specs.Checkout.{copier, co_steps, WhicheverCopy};

use crate::decision::find_site;
use accounts::{Account, Caller};
use copying::Copier;
use placing::{Site, place_copies};
use shell::Answer;
use tree::{FEW_ROWS, FIRST, HALF_ROWS, MANY_ROWS, ROW, SOME_ROWS, TREE, subtree_end};

// The bytes of the arrays for copies: the two that stand before the rows, and the rows.
const FEW_WIDTH: usize = FIRST + ROW * FEW_ROWS;

const SOME_WIDTH: usize = FIRST + ROW * SOME_ROWS;

const MANY_WIDTH: usize = FIRST + ROW * MANY_ROWS;

const HALF_WIDTH: usize = FIRST + ROW * HALF_ROWS;

// What is left of the command behind its first checks, by an array of a width for the copies.
fn co_by_array<const WIDTH: usize>(
    tree: &mut [u8],
    who: Copier,
    site: Site,
    entry: &[u8],
    to: &[u8],
) -> Answer
    requires checkout { Checkout who tree.old entry.now to.now site }
    requires filed_in_bounds { row_start (subtree_rows tree.old site.filed) ≤ WIDTH }
    requires width_bound { WIDTH ≤ tree_width }
    ensures { CheckedOut who tree.old entry.now to.now site result tree.new }
{
    let mut out = [0u8; WIDTH];
    place_copies(tree, who, site, entry, to, &mut out)
}

// By the smallest that has room for the copies of all rows of the entry: each is cleared first, and to clear one for all the rows of a
// tree takes longer than to copy few.
fn co_at(tree: &mut [u8], who: Copier, site: Site, entry: &[u8], to: &[u8]) -> Answer
    requires { Checkout who tree.old entry.now to.now site }
    ensures { CheckedOut who tree.old entry.now to.now site result tree.new }
{
    let filed = site.filed;
    let n = subtree_end(tree, filed) - filed;
    match n {
        ..=FEW_ROWS => co_by_array::<FEW_WIDTH>(tree, who, site, entry, to),
        ..=SOME_ROWS => co_by_array::<SOME_WIDTH>(tree, who, site, entry, to),
        ..=MANY_ROWS => co_by_array::<MANY_WIDTH>(tree, who, site, entry, to),
        ..=HALF_ROWS => co_by_array::<HALF_WIDTH>(tree, who, site, entry, to),
        _ => co_by_array::<TREE>(tree, who, site, entry, to),
    }
}

// `co` of a caller whose session's account is `account`: copies the entry, with all that may be read below it, to the path `to`.
pub fn co(tree: &mut [u8], caller: Caller, account: Account, entry: &[u8], to: &[u8]) -> Answer
    requires whole { Whole tree.old }
    requires entry_path_text { EntryPathText entry.now }
    requires path_text { PathText to.now }
    ensures { WhicheverCopy tree.old entry.now to.now
        (λ t e d. FollowsSilently (co_steps (copier account caller) t e d) tree.old result tree.new) }
{
    let who = Copier {
        reader: account,
        caller,
    };
    let site = find_site(tree, who, entry, to)?;
    co_at(tree, who, site, entry, to)
}
