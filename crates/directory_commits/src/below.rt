// The rows below a directory, one after another, in a store's bytes.
ghost use Rattle.std.specs.Prelude.{◌≡◌, ◌≤◌};
ghost use Rattle.directory_commits.specs.Steps.{PlaceIn, EndsIn, SteppedIn, count_of};
ghost use Rattle.directory_commits.specs.Commits.{DirectoryRow, BelowDone};

use crate::Step;
use crate::row::commit_step;
use accounts::{Account, Caller};
use entries::LinkRows;
use store::HEADER;
use tree::{Cause, subtree_end};

// Where the rows below a row end.
fn end_in(store: &[u8], row: usize) -> usize
    requires { PlaceIn store.now row }
    ensures { EndsIn store.now row result }
{
    subtree_end(&store[HEADER..], row)
}

// One row, in a store: the tree is lent.
pub fn step_in(store: &mut [u8], person: Account, account: Account, row: usize) -> Step
    requires { PlaceIn store.old row }
    ensures { SteppedIn person account store.old row result store.new }
{
    commit_step(&mut store[HEADER..], person, account, row)
}

// How many files a step committed.
fn committed(filed: Result<LinkRows, Cause>) -> usize
    ensures { (result ≡ count_of filed) × (result ≤ 1) }
{
    usize::from(filed.is_ok())
}

// Commits the files below the directory at a row, and tells how many.
pub fn commit_below(store: &mut [u8], caller: Caller, account: Account, row: usize) -> usize
    requires { DirectoryRow store.old caller account row }
    ensures { BelowDone caller account store.old row result store.new }
{
    let person = caller.account;
    let end = end_in(store, row);
    let mut at = row + 1;
    let mut count: usize = 0;
    // No `for`: each step tells the row to go on at.
    while at < end {
        let step = step_in(store, person, account, at);
        count += committed(step.filed);
        at = step.next;
    }
    count
}
