// A working file and its entry: `commit` files its content, `up` brings it up to the entry's.
ghost use Rattle.std.specs.Prelude.{◌≡◌, ◌<◌};
ghost use Rattle.tree.specs.Forest.{Place};
ghost use Rattle.tree.specs.Node.{Node};
ghost use Rattle.tree.specs.Encoding.{encode_tree};
ghost use Rattle.tree.specs.Result.{outcome};
ghost use Rattle.tree.specs.RowAt.{row_at, tag_number_at};
ghost use Rattle.tree.specs.WellFormed.{last_revision};
ghost use Rattle.tree.specs.TreeBytes.{HasRow, Whole, PathText, SomePlace, WhicheverPlace};
ghost use Rattle.shell.specs.CommandBytes.{FollowsAt};
ghost use Rattle.entries.specs.EntrySteps.{commit_tests, commit_at, after_commit, after_up, up_steps, link_rows_from, Link, Linked, SomeLink, FiledAt};

use crate::LinkRows;
use crate::tagged::{linked_at, linked_rows};
use accounts::{Account, Caller, Right};
use node_fields::{copy_content, set_revision, set_tag_revision};
use shell::Answer;
use tree::{Cause, LAST_REVISION, revision_at, tag_revision_at};
use walks::may_at;

// Whether the working file may be filed: w above the entry, the entry's revision the tag's, and not the last.
fn judge_commit(tree: &[u8], account: Account, rows: LinkRows) -> Result<(), Cause>
    requires has_row { HasRow tree.now rows.working }
    requires has_row_2 { HasRow tree.now rows.entry }
    requires has_row_3 { HasRow tree.now rows.above }
    ensures { outcome result ≡ commit_tests account (row_at tree.now rows.above).here (tag_number_at tree.now rows.working)
        (row_at tree.now rows.entry).here.revision }
{
    if !may_at(tree, rows.above, account, Right::W) {
        return Err(Cause::Access);
    }
    let revision = revision_at(tree, rows.entry);
    if tag_revision_at(tree, rows.working) != revision {
        return Err(Cause::Stale);
    }
    if revision == LAST_REVISION {
        return Err(Cause::RevisionsSpent);
    }
    Ok(())
}

// What `commit` of the file at a row is about, or why it is refused.
fn commit_rows(
    tree: &[u8],
    person: Account,
    account: Account,
    row: usize,
) -> Result<LinkRows, Cause>
    requires { SomePlace tree.now row }
    ensures { WhicheverPlace tree.now row (λ t p d. outcome result ≡ link_rows_from t (commit_at person account t p d)) }
{
    let rows = linked_at(tree, person, Right::R, account, row)?;
    judge_commit(tree, account, rows)?;
    Ok(rows)
}

// The entry takes the working file's content and the next revision, and so does the tag.
fn file_content(tree: &mut [u8], working: usize, entry: usize)
    requires some_link { SomeLink tree.old working entry }
    requires bound { (row_at tree.old entry).here.revision < last_revision }
    ensures { (t : Place Node) (l : Link) → Linked tree.old t l working entry → tree.new ≡ encode_tree (after_commit t l) }
{
    let next = revision_at(tree, entry) + 1;
    copy_content(tree, working, entry);
    set_revision(tree, entry, next);
    set_tag_revision(tree, working, next);
}

// The working file takes the entry's content, and the tag its revision.
fn bring_up(tree: &mut [u8], working: usize, entry: usize)
    requires { SomeLink tree.old working entry }
    ensures { (t : Place Node) (l : Link) → Linked tree.old t l working entry → tree.new ≡ encode_tree (after_up t l) }
{
    let current = revision_at(tree, entry);
    set_tag_revision(tree, working, current);
    copy_content(tree, entry, working);
}

// `commit` of the file at a row: its entry takes its content. Answers the rows that it linked, or why not: a directory is of the wrong kind.
pub fn commit_at(
    tree: &mut [u8],
    person: Account,
    account: Account,
    row: usize,
) -> Result<LinkRows, Cause>
    requires { SomePlace tree.old row }
    ensures { WhicheverPlace tree.old row (λ t p d.
        FiledAt tree.old t (commit_at person account t p d) result tree.new) }
{
    let rows = commit_rows(tree, person, account, row)?;
    file_content(tree, rows.working, rows.entry);
    Ok(rows)
}

// `up,w`: a working file takes the content of its entry.
pub fn up(tree: &mut [u8], caller: Caller, account: Account, working: &[u8]) -> Answer
    requires whole { Whole tree.old }
    requires path_text { PathText working.now }
    ensures { FollowsAt (up_steps caller.account account) tree.old working.now result tree.new }
{
    let rows = linked_rows(tree, caller.account, Right::W, account, working)?;
    bring_up(tree, rows.working, rows.entry);
    Ok(None)
}
