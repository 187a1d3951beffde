// `rm` and `rmdir`.
ghost use Rattle.std.specs.Prelude.{◌≡◌};
ghost use Rattle.tree.specs.Result.{outcome};
ghost use Rattle.tree.specs.Node.{same_kind};
ghost use Rattle.tree.specs.RowAt.{row_at};
ghost use Rattle.tree.specs.TreeBytes.{HasRow, Used, Whole, PathText, Whichever};
ghost use Rattle.shell.specs.Steps.{run_rm};
ghost use Rattle.shell.specs.CommandBytes.{FollowsAt};
ghost use Rattle.walks.specs.WalkBytes.{spot_from};
ghost use Rattle.nodes.specs.NodeChecks.{may_remove, JudgedRemoval};

use crate::paths::is_reserved;
use accounts::{Account, Caller, Right};
use edits::take_rows;
use shell::Answer;
use tree::{Cause, Kind, kind_at};
use walks::{Spot, has_children, may_at, walk};

// Whether a row is one of a kind.
fn is_of_kind(tree: &[u8], row: usize, kind: Kind) -> bool
    requires { HasRow tree.now row }
    ensures { result ≡ same_kind (row_at tree.now row).here.kind kind }
{
    kind_at(tree, row) == kind
}

// Whether the node of a row may be removed from the directory above: the kind, w there, and that nothing lies below.
fn may_remove_row(tree: &[u8], account: Account, kind: Kind, spot: Spot) -> Result<Spot, Cause>
    requires used { Used tree.now spot.row }
    requires has_row { HasRow tree.now spot.above }
    ensures { JudgedRemoval tree.now account kind spot result }
{
    if !is_of_kind(tree, spot.row, kind) {
        return Err(Cause::WrongKind);
    }
    if !may_at(tree, spot.above, account, Right::W) {
        return Err(Cause::Access);
    }
    if has_children(tree, spot.row) {
        return Err(Cause::NotEmpty);
    }
    Ok(spot)
}

// Whether the node at a path may be removed, and where it is.
fn may_remove(tree: &[u8], account: Account, kind: Kind, path: &[u8]) -> Result<Spot, Cause>
    requires whole { Whole tree.now }
    requires path_text { PathText path.now }
    ensures { Whichever tree.now path.now (λ t p. outcome result ≡ spot_from t p (may_remove account t kind p)) }
{
    if is_reserved(path) {
        return Err(Cause::Reserved);
    }
    let spot = walk(tree, account, path)?;
    may_remove_row(tree, account, kind, spot)
}

// Takes a file, or a directory without children, out.
pub fn rm(tree: &mut [u8], caller: Caller, kind: Kind, path: &[u8]) -> Answer
    requires whole { Whole tree.old }
    requires path_text { PathText path.now }
    ensures { FollowsAt (λ t p. run_rm caller 0 t kind p) tree.old path.now result tree.new }
{
    let spot = may_remove(tree, caller.account, kind, path)?;
    take_rows(tree, spot.row, 1);
    Ok(None)
}
