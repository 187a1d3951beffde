// What `commit` is asked for at a path: the row of a file, or that of a directory that the person may read.
ghost use Rattle.std.specs.Prelude.{◌≡◌};
ghost use Rattle.tree.specs.Result.{outcome};
ghost use Rattle.tree.specs.TreeBytes.{Whole, PathText, Whichever};
ghost use Rattle.stored_header.specs.Stored.{SomeStore};
ghost use Rattle.directory_commits.specs.Steps.{found_steps, Finds};

use crate::Found;
use accounts::Account;
use store::HEADER;
use tree::{Cause, Kind, kind_at};
use walks::{readable_at, walk};

// The person's walk, and whether a directory may be read.
fn found_at(tree: &[u8], person: Account, path: &[u8]) -> Result<Found, Cause>
    requires whole { Whole tree.now }
    requires path_text { PathText path.now }
    ensures { Whichever tree.now path.now (λ t w. outcome result ≡ found_steps person t w) }
{
    let row = walk(tree, person, path)?.row;
    match kind_at(tree, row) {
        Kind::File => Ok(Found::File(row)),
        Kind::Directory if readable_at(tree, row, person) => Ok(Found::Directory(row)),
        Kind::Directory => Err(Cause::Access),
    }
}

// The same in a store.
pub fn found_in(store: &[u8], person: Account, path: &[u8]) -> Result<Found, Cause>
    requires some_store { SomeStore store.now }
    requires path_text { PathText path.now }
    ensures { Finds store.now person path.now result }
{
    found_at(&store[HEADER..], person, path)
}
