// `create` and `mkdir`.
ghost use Rattle.std.specs.Prelude.{◌≡◌};
ghost use Rattle.tree.specs.Result.{outcome};
ghost use Rattle.tree.specs.TreeBytes.{Whole, PathText, Whichever};
ghost use Rattle.gaps.specs.Gaps.{gap_from};
ghost use Rattle.shell.specs.Steps.{run_create};
ghost use Rattle.shell.specs.CommandBytes.{FollowsAt};
ghost use Rattle.nodes.specs.NodeChecks.{may_create};

use accounts::{Account, Caller};
use edits::{Fresh, put_child};
use gaps::{Gap, last_name, new_group, room_for};
use shell::Answer;
use tree::{Cause, Kind, MOST_ROWS, count};

// Whether a node may be made, and where: room at the path, and fewer than 256 nodes.
fn may_create(tree: &[u8], account: Account, path: &[u8]) -> Result<Gap, Cause>
    requires whole { Whole tree.now }
    requires path_text { PathText path.now }
    ensures { Whichever tree.now path.now (λ t p. outcome result ≡ gap_from t p (may_create account t p)) }
{
    let gap = room_for(tree, account, path)?;
    if MOST_ROWS <= count(tree) {
        return Err(Cause::Full);
    }
    Ok(gap)
}

// Makes an empty file or a directory, the caller's.
pub fn create(tree: &mut [u8], caller: Caller, kind: Kind, path: &[u8], mode: u16) -> Answer
    requires whole { Whole tree.old }
    requires path_text { PathText path.now }
    ensures { FollowsAt (λ t p. run_create caller 0 t kind p mode) tree.old path.now result tree.new }
{
    let gap = may_create(tree, caller.account, path)?;
    let owner = caller.account.uid;
    let group = new_group(tree, gap.row, caller);
    let node = Fresh {
        kind,
        owner,
        group,
        mode,
        revision: 0,
    };
    put_child(tree, gap.at, gap.depth, last_name(path), node);
    Ok(None)
}
