// One row of a directory's commit: the file there is committed, and the next row is told.
ghost use Rattle.std.specs.Prelude.{◌≡◌};
ghost use Rattle.tree.specs.TreeBytes.{SomePlace, WhicheverPlace};
ghost use Rattle.directory_commits.specs.Steps.{row_after, Stepped};

use crate::Step;
use accounts::Account;
use entries::commit_at;
use tree::{Kind, kind_at, subtree_end};
use walks::readable_at;

// The next row, past all that lies below a directory that the person may not read. A file is told by its kind, which is less than
// the access test.
fn row_after(tree: &[u8], person: Account, row: usize) -> usize
    requires { SomePlace tree.now row }
    ensures { WhicheverPlace tree.now row (λ t p d. result ≡ row_after person row d) }
{
    match kind_at(tree, row) {
        Kind::File => row + 1,
        Kind::Directory if readable_at(tree, row, person) => row + 1,
        Kind::Directory => subtree_end(tree, row),
    }
}

// Commits the file at a row, if there is one that a single commit accepts.
pub fn commit_step(tree: &mut [u8], person: Account, account: Account, row: usize) -> Step
    requires { SomePlace tree.old row }
    ensures { WhicheverPlace tree.old row (λ t p d. Stepped person account tree.old t p row d result tree.new) }
{
    let next = row_after(tree, person, row);
    let filed = commit_at(tree, person, account, row);
    Step { next, filed }
}
