// `del`: an entry taken out.
ghost use Rattle.std.specs.Prelude.{◌≡◌, not};
ghost use Rattle.syntax.specs.Path.{entry_location};
ghost use Rattle.tree.specs.Result.{outcome};
ghost use Rattle.tree.specs.RowAt.{row_at, all_rows};
ghost use Rattle.tree.specs.TreeBytes.{HasRow, Used, Whole, EntryPathText, WhicheverEntry};
ghost use Rattle.walks.specs.RowBelow.{has_children_in};
ghost use Rattle.shell.specs.CommandBytes.{FollowsSilently};
ghost use Rattle.walks.specs.WalkBytes.{spot_from};
ghost use Rattle.entries.specs.EntrySteps.{del_tests, del_walk, del_steps};

use accounts::{Account, Right};
use edits::take_rows;
use shell::Answer;
use tree::Cause;
use walks::{Spot, has_children, may_at, readable_at, walk};

// Whether an entry may be taken out: readable, w above it, and nothing below it.
fn judge_del(tree: &[u8], account: Account, row: usize, above: usize) -> Result<(), Cause>
    requires used { Used tree.now row }
    requires has_row { HasRow tree.now above }
    ensures { outcome result ≡ del_tests account (row_at tree.now row).here (row_at tree.now above).here
        (not (has_children_in (all_rows tree.now) row)) }
{
    if !readable_at(tree, row, account) || !may_at(tree, above, account, Right::W) {
        return Err(Cause::Access);
    }
    if has_children(tree, row) {
        return Err(Cause::NotEmpty);
    }
    Ok(())
}

// The account's walk to an entry that may be taken out.
fn walk_del(tree: &[u8], account: Account, entry: &[u8]) -> Result<Spot, Cause>
    requires whole { Whole tree.now }
    requires entry_path_text { EntryPathText entry.now }
    ensures { WhicheverEntry tree.now entry.now (λ t e.
        outcome result ≡ spot_from t (entry_location e) (del_walk account t e)) }
{
    let spot = walk(tree, account, entry)?;
    judge_del(tree, account, spot.row, spot.above)?;
    Ok(spot)
}

// `del,e`: an entry is taken out. Whose session it is matters to the account alone.
pub fn del(tree: &mut [u8], account: Account, entry: &[u8]) -> Answer
    requires whole { Whole tree.old }
    requires entry_path_text { EntryPathText entry.now }
    ensures { WhicheverEntry tree.old entry.now (λ t e.
        FollowsSilently (del_steps account t e) tree.old result tree.new) }
{
    let spot = walk_del(tree, account, entry)?;
    take_rows(tree, spot.row, 1);
    Ok(None)
}
