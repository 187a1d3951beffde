// The room for a new child: the walk to its directory, the search for its name there, and the test of w. Every node that is made
// or put in, by a command or by root for the initial tree, gets its room from the one function `room_for`.
ghost use Rattle.std.specs.Prelude.{◌≡◌, ◌<◌, length};
ghost use Rattle.tree.specs.Walk.{by_modes, room};
ghost use Rattle.tree.specs.TreeBytes.{Whole, PathText, Whichever, SomePlace, WhicheverPlace};
ghost use Rattle.gaps.specs.Gaps.{behind_slash, gap_from, gap_below};
ghost use Rattle.tree.specs.Result.{outcome};

use crate::Gap;
use accounts::{Account, Right};
use tree::{Cause, depth_at, find_child};
use walks::{may_at, parent_walk};

// The last name of a path: what stands behind the last `/` of its text.
pub fn last_name(path: &[u8]) -> &[u8]
    requires { 0 < length path.now }
    ensures { result.now ≡ behind_slash path.now }
{
    let slash = syntax::last_slash(path);
    &path[slash + 1..]
}

// In the directory of a row: none where the name is used, and none without w.
fn room_below(tree: &[u8], account: Account, row: usize, name: &[u8]) -> Result<Gap, Cause>
    requires { SomePlace tree.now row }
    ensures { WhicheverPlace tree.now row (λ t q d. outcome result ≡ gap_below account t q name.now d) }
{
    match find_child(tree, row, name) {
        Ok(_) => Err(Cause::Exists),
        Err(at) => {
            if !may_at(tree, row, account, Right::W) {
                return Err(Cause::Access);
            }
            let depth = depth_at(tree, row) + 1;
            Ok(Gap { row, at, depth })
        }
    }
}

// At a path: none for `/`, and where the walk to its directory is refused.
pub fn room_for(tree: &[u8], account: Account, path: &[u8]) -> Result<Gap, Cause>
    requires whole { Whole tree.now }
    requires path_text { PathText path.now }
    ensures { Whichever tree.now path.now (λ t p. outcome result ≡ gap_from t p (room (by_modes account) t p)) }
{
    if path.len() == 1 {
        return Err(Cause::Exists);
    }
    let directory = parent_walk(tree, account, path)?;
    room_below(tree, account, directory.row, last_name(path))
}
