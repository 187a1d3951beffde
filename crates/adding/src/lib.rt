// `add`: what stands at a path is filed as a new entry.
#![tactic(auto)]

ghost use Rattle.std.specs.Prelude.{◌≡◌, ◌≤◌, ◌<◌, length};
ghost use Rattle.std.proofs.Math.Option.{some};
ghost use Rattle.accounts.specs.Dominance.{BoundedRole};
ghost use Rattle.syntax.specs.Path.{Path, EntryPath, entry_location, path, entry_path};
ghost use Rattle.tree.specs.Layout.{row_width, name_width};
ghost use Rattle.tree.specs.Encoding.{row_bytes, encode_tree};
ghost use Rattle.tree.specs.Result.{outcome};
ghost use Rattle.tree.specs.RowAt.{row_at};
ghost use Rattle.tree.specs.TreeBytes.{HasRow, Whole, PathText, Whichever, EntryPathText, WhicheverEntry};
ghost use Rattle.gaps.specs.Gaps.{gap_from};
ghost use Rattle.machine.specs.StoreMachine.{entry_mode};
ghost use Rattle.walks.specs.WalkBytes.{spot_from};
ghost use Rattle.adding.specs.AddSteps.{add_tests, add_walk, add_room, after_add, fresh_entry, filled_node, Addition, Adds};

use accounts::{Account, Caller, Gid, Role, Uid};
use buffers::{clear, write_padded};
use edits::{Fresh, put_rows, write_head};
use gaps::{Gap, last_name, room_for};
use node_fields::set_tag;
use shell::Answer;
use tree::{
    BEHIND_NAME, CONTENT, CONTENT_WIDTH, Cause, Kind, MOST_ROWS, NAME, NAME_WIDTH, ROW, TAG,
    content_at, count, kind_at,
};
use walks::{Spot, owns_at, readable_at, walk};

// An entry begins with this revision.
const FIRST_REVISION: u16 = 1;

// Owners and groups of entries are counted from here by role.
const SERVICE: u8 = 16;

// Whether a person may add a node: the owner or root, with the right to read it, and in a session whose role dominates the entry's.
fn judge_add(tree: &[u8], person: Account, dominated: bool, row: usize) -> Result<(), Cause>
    requires { HasRow tree.now row }
    ensures { outcome result ≡ add_tests person dominated (row_at tree.now row).here }
{
    if !owns_at(tree, row, person) {
        return Err(Cause::Reserved);
    }
    if !readable_at(tree, row, person) {
        return Err(Cause::Access);
    }
    if !dominated {
        return Err(Cause::Reserved);
    }
    Ok(())
}

// The person's walk to what is added.
fn walk_add(tree: &[u8], person: Account, dominated: bool, working: &[u8]) -> Result<Spot, Cause>
    requires whole { Whole tree.now }
    requires path_text { PathText working.now }
    ensures { Whichever tree.now working.now (λ t w. outcome result ≡ spot_from t w (add_walk person dominated t w)) }
{
    let spot = walk(tree, person, working)?;
    judge_add(tree, person, dominated, spot.row)?;
    Ok(spot)
}

// Where the account may put the entry in: room at its path, and fewer than 256 nodes.
fn entry_room(tree: &[u8], account: Account, entry: &[u8]) -> Result<Gap, Cause>
    requires whole { Whole tree.now }
    requires entry_path_text { EntryPathText entry.now }
    ensures { WhicheverEntry tree.now entry.now (λ t e.
        outcome result ≡ gap_from t (entry_location e) (add_room account t e)) }
{
    let gap = room_for(tree, account, entry)?;
    if MOST_ROWS <= count(tree) {
        return Err(Cause::Full);
    }
    Ok(gap)
}

// A file's entry is 0440, a directory's 0770.
fn entry_mode(kind: Kind) -> u16
    ensures { result ≡ entry_mode kind }
{
    match kind {
        Kind::File => 0o440,
        Kind::Directory => 0o770,
    }
}

// A new entry of a role, without its content.
fn new_entry(kind: Kind, role: Role) -> Fresh
    requires { role.0 < 8 }
    ensures { result ≡ fresh_entry kind role }
{
    let number = SERVICE + role.0;
    let mode = entry_mode(kind);
    Fresh {
        kind,
        owner: Uid(number),
        group: Gid(number),
        mode,
        revision: FIRST_REVISION,
    }
}

// Writes the row of a new node that has the content of the node at another row.
fn write_entry(tree: &[u8], working: usize, depth: u8, name: &[u8], node: Fresh, row: &mut [u8])
    requires has_row { HasRow tree.now working }
    requires name_len_bound { length name.now ≤ name_width }
    requires row_len { length row.old ≡ row_width }
    ensures { row.new ≡ row_bytes (record {
      depth = depth;
      name = name.now;
      here = filled_node node (row_at tree.now working).here.content;
    }) }
{
    write_head(row, 0, depth, node);
    write_padded(row, NAME, NAME_WIDTH, name);
    clear(row, TAG, BEHIND_NAME);
    write_padded(row, CONTENT, CONTENT_WIDTH, content_at(tree, working));
}

// The entry is put in, and what is added takes its tag. The row is written first: it has the content of what is added.
fn file_entry(tree: &mut [u8], working: usize, at: usize, depth: u8, entry: &[u8], role: Role)
    requires addition { Addition tree.old entry.now working at depth }
    requires role_bound { role.0 < 8 }
    ensures { (j : Addition tree.old entry.now working at depth) (z : BoundedRole) → z.role ≡ role
        → tree.new ≡ encode_tree (after_add j.top j.path j.filed z j.found) }
{
    let kind = kind_at(tree, working);
    let node = new_entry(kind, role);
    let mut row = [0u8; ROW];
    write_entry(tree, working, depth, last_name(entry), node, &mut row);
    set_tag(tree, working, entry, FIRST_REVISION);
    put_rows(tree, at, 1, &row);
}

// `add,w,e,r` in a session whose account is `account`; `dominated` says whether its role dominates the entry's.
pub fn add(
    tree: &mut [u8],
    caller: Caller,
    account: Account,
    dominated: bool,
    working: &[u8],
    entry: &[u8],
    role: Role,
) -> Answer
    requires whole { Whole tree.old }
    requires path_text { PathText working.now }
    requires entry_path_text { EntryPathText entry.now }
    requires role_bound { role.0 < 8 }
    ensures { (w : Path) (e : EntryPath) → path working.now ≡ some w → entry_path entry.now ≡ some e
        → Adds tree.old caller account dominated role w e result tree.new }
{
    let spot = walk_add(tree, caller.account, dominated, working)?;
    let gap = entry_room(tree, account, entry)?;
    file_entry(tree, spot.row, gap.at, gap.depth, entry, role);
    Ok(None)
}
