// Where a working file and its entry stand: the checks that `commit` and `up` share.
ghost use Rattle.std.specs.Prelude.{◌≡◌};
ghost use Rattle.tree.specs.Result.{outcome};
ghost use Rattle.tree.specs.RowAt.{row_at};
ghost use Rattle.tree.specs.TreeBytes.{HasRow, Whole, PathText, Whichever, SomePlace, WhicheverPlace};
ghost use Rattle.walks.specs.WalkBytes.{spot_from};
ghost use Rattle.entries.specs.EntrySteps.{file_tests, file_walk, link_on, link_at, link, link_rows_from};

use crate::LinkRows;
use accounts::{Account, Right};
use tree::{Cause, Kind, kind_at, tag_path_at};
use walks::{Spot, may_at, walk};

// A file with the right, else why not.
fn judge_file(tree: &[u8], account: Account, right: Right, row: usize) -> Result<(), Cause>
    requires { HasRow tree.now row }
    ensures { outcome result ≡ file_tests account right (row_at tree.now row).here }
{
    match kind_at(tree, row) {
        Kind::Directory => Err(Cause::WrongKind),
        Kind::File if may_at(tree, row, account, right) => Ok(()),
        Kind::File => Err(Cause::Access),
    }
}

// The walk to a file at which the account has a right.
fn walk_file(tree: &[u8], account: Account, right: Right, path: &[u8]) -> Result<Spot, Cause>
    requires whole { Whole tree.now }
    requires path_text { PathText path.now }
    ensures { Whichever tree.now path.now (λ t p. outcome result ≡ spot_from t p (file_walk account right t p)) }
{
    let spot = walk(tree, account, path)?;
    judge_file(tree, account, right, spot.row)?;
    Ok(spot)
}

// From a working file to the entry that its tag leads to.
fn entry_rows(tree: &[u8], account: Account, working: usize) -> Result<LinkRows, Cause>
    requires { SomePlace tree.now working }
    ensures { WhicheverPlace tree.now working (λ t p d. outcome result ≡ link_rows_from t (link_on account t p d)) }
{
    let path = tag_path_at(tree, working);
    if path.is_empty() {
        return Err(Cause::Untagged);
    }
    let spot = walk_file(tree, account, Right::R, path)?;
    Ok(LinkRows {
        working,
        entry: spot.row,
        above: spot.above,
    })
}

// The person's tests at a working file, then the account's walk to its entry. What stands above the file is not asked for.
pub fn linked_at(
    tree: &[u8],
    person: Account,
    right: Right,
    account: Account,
    row: usize,
) -> Result<LinkRows, Cause>
    requires { SomePlace tree.now row }
    ensures { WhicheverPlace tree.now row (λ t p d. outcome result ≡ link_rows_from t (link_at person right account t p d)) }
{
    judge_file(tree, person, right, row)?;
    entry_rows(tree, account, row)
}

// The person's walk to a working file, then that.
pub fn linked_rows(
    tree: &[u8],
    person: Account,
    right: Right,
    account: Account,
    working: &[u8],
) -> Result<LinkRows, Cause>
    requires whole { Whole tree.now }
    requires path_text { PathText working.now }
    ensures { Whichever tree.now working.now (λ t w. outcome result ≡ link_rows_from t (link person right account t w)) }
{
    let spot = walk(tree, person, working)?;
    linked_at(tree, person, right, account, spot.row)
}
