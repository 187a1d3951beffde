// `mv`: the checks, which find the rows of what is moved and of what it replaces, and then the change.
ghost use Rattle.std.specs.Prelude.{◌≡◌, ◌&&◌, ◌+◌};
ghost use Rattle.accounts.specs.declared.Right.TheVariants.{W};
ghost use Rattle.tree.specs.Result.{outcome};
ghost use Rattle.tree.specs.Node.{allows};
ghost use Rattle.tree.specs.RowAt.{row_at, all_rows};
ghost use Rattle.tree.specs.TreeBytes.{HasRow, Used, Whole, PathText};
ghost use Rattle.walks.specs.RowBelow.{height_in};
ghost use Rattle.shell.specs.Steps.{run_mv};
ghost use Rattle.nodes.specs.NodeChecks.{WhicheverTwo, FollowsAtTwo};
ghost use Rattle.nodes.specs.MoveChecks.{may_move, move_from, row_onto, row_into};

use crate::Move;
use crate::paths::{is_reserved, is_within};
use accounts::{Account, Caller, Right};
use buffers::same;
use edits::take_rows;
use gaps::last_name;
use moving::move_place;
use node_fields::copy_node;
use shell::Answer;
use syntax::MOST_NAMES;
use tree::{Cause, depth_at, find_child, is_directory, kind_at};
use walks::{height_below, may_at, parent_walk, walk};

// Whether an account may write in both of two directories.
fn may_write_both(tree: &[u8], account: Account, one: usize, other: usize) -> bool
    requires has_row { HasRow tree.now one }
    requires has_row_2 { HasRow tree.now other }
    ensures { result ≡ (allows account W (row_at tree.now one).here && allows account W (row_at tree.now other).here) }
{
    may_at(tree, one, account, Right::W) && may_at(tree, other, account, Right::W)
}

// Onto what stands there: only a file replaces, and only a file is replaced.
fn judge_onto(
    tree: &[u8],
    row: usize,
    target: usize,
    writable: bool,
    itself: bool,
) -> Result<Move, Cause>
    requires has_row { HasRow tree.now row }
    requires has_row_2 { HasRow tree.now target }
    ensures { outcome result ≡ row_onto (row_at tree.now row).here.kind (row_at tree.now target).here.kind writable itself row target }
{
    if is_directory(kind_at(tree, target)) {
        return Err(Cause::Exists);
    }
    if is_directory(kind_at(tree, row)) {
        return Err(Cause::WrongKind);
    }
    if !writable {
        return Err(Cause::Access);
    }
    if itself {
        return Ok(Move::Itself);
    }
    Ok(Move::Onto { row, target })
}

// Into a directory where nothing of the name stands: not into itself, and not too deep.
fn judge_into(
    tree: &[u8],
    row: usize,
    directory: usize,
    writable: bool,
    inside: bool,
) -> Result<Move, Cause>
    requires used { Used tree.now row }
    requires has_row { HasRow tree.now directory }
    ensures { outcome result ≡ row_into writable inside ((row_at tree.now directory).depth + 1 + height_in (all_rows tree.now) row) row }
{
    if !writable {
        return Err(Cause::Access);
    }
    if inside {
        return Err(Cause::IntoItself);
    }
    if MOST_NAMES < depth_at(tree, directory) as usize + 1 + height_below(tree, row) {
        return Err(Cause::TooDeep);
    }
    Ok(Move::Into { row })
}

// Whether the node at a path may be moved to another, and how.
fn may_move(tree: &[u8], account: Account, from: &[u8], to: &[u8]) -> Result<Move, Cause>
    requires whole { Whole tree.now }
    requires path_text { PathText from.now }
    requires path_text_2 { PathText to.now }
    ensures { WhicheverTwo tree.now from.now to.now (λ t p q. outcome result ≡ move_from t p q (may_move account t p q)) }
{
    if is_reserved(from) || is_reserved(to) {
        return Err(Cause::Reserved);
    }
    let place = walk(tree, account, from)?;
    let directory = parent_walk(tree, account, to)?;
    let writable = may_write_both(tree, account, place.above, directory.row);
    match find_child(tree, directory.row, last_name(to)) {
        Ok(target) => judge_onto(tree, place.row, target, writable, same(from, to)),
        Err(_) => judge_into(
            tree,
            place.row,
            directory.row,
            writable,
            is_within(to, from),
        ),
    }
}

// Moves a node with all below it; onto a file it takes that file's place, with its own tag.
pub fn mv(tree: &mut [u8], caller: Caller, from: &[u8], to: &[u8]) -> Answer
    requires whole { Whole tree.old }
    requires path_text { PathText from.now }
    requires path_text_2 { PathText to.now }
    ensures { FollowsAtTwo (run_mv caller 0) tree.old from.now to.now result tree.new }
{
    match may_move(tree, caller.account, from, to)? {
        Move::Into { row } => move_place(tree, row, to),
        Move::Onto { row, target } => {
            copy_node(tree, row, target);
            take_rows(tree, row, 1);
        }
        Move::Itself => {}
    }
    Ok(None)
}
