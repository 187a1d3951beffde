// `commit,w` on a store's bytes.
ghost use Rattle.std.specs.Prelude.{◌≤◌, length};
ghost use Rattle.tree.specs.TreeBytes.{PathText};
ghost use Rattle.stored_header.specs.Stored.{ActsIn};
ghost use Rattle.directory_commits.specs.Commits.{PlaceRow, DirectoryRow, DirectoryDone, FileDone, CommitDone};

use crate::Found;
use crate::below::{commit_below, step_in};
use crate::finding::found_in;
use accounts::{Account, Caller};
use shell::Answer;
use syntax::write_decimal;

// The directory at a row: the answer's text is how many files were committed.
fn commit_directory(
    store: &mut [u8],
    caller: Caller,
    account: Account,
    row: usize,
    answer: &mut [u8],
) -> Answer
    requires directory_row { DirectoryRow store.old caller account row }
    requires in_bounds { 4096 ≤ length answer.old }
    ensures { DirectoryDone caller account store.old row answer.old result store.new answer.new }
{
    let n = commit_below(store, caller, account, row);
    Ok(Some(write_decimal(answer, 0, n)))
}

// The file at a row.
fn commit_file(store: &mut [u8], caller: Caller, account: Account, row: usize) -> Answer
    requires { PlaceRow store.old caller account row }
    ensures { FileDone caller account store.old row result store.new }
{
    let step = step_in(store, caller.account, account, row);
    step.filed?;
    Ok(None)
}

// `commit,w`: of a file, or of all files below a directory that the person may read.
pub fn commit(
    store: &mut [u8],
    caller: Caller,
    account: Account,
    working: &[u8],
    answer: &mut [u8],
) -> Answer
    requires acts_in { ActsIn store.old caller account }
    requires path_text { PathText working.now }
    requires in_bounds { 4096 ≤ length answer.old }
    ensures { CommitDone caller account working.now store.old answer.old result store.new answer.new }
{
    match found_in(store, caller.account, working)? {
        Found::File(row) => commit_file(store, caller, account, row),
        Found::Directory(row) => commit_directory(store, caller, account, row, answer),
    }
}
