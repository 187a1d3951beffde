// Walks along a path: name by name from `/`, each directory entered before a name is looked up in it. The row above is
// answered too, since `rm`, `rmdir` and `mv` test w there. The parent walk is the walk along the text before the last `/`,
// and then the x test.
ghost use Rattle.std.specs.Prelude.{◌≡◌, drop};
ghost use Rattle.tree.specs.Result.{outcome};
ghost use Rattle.tree.specs.RowAt.{all_rows};
ghost use Rattle.tree.specs.TreeBytes.{Sized, Used};
ghost use Rattle.walks.specs.RowWalk.{enter_first, step_in, walk_in, parent_walk_in};

use crate::Spot;
use crate::access::may_at;
use accounts::{Account, Right};
use syntax::Names;
use tree::{Cause, Kind, find_child, kind_at};

// Into a directory: refused at a file, and without x.
fn enter(tree: &[u8], account: Account, row: usize) -> Result<(), Cause>
    requires { Used tree.now row }
    ensures { outcome result ≡ enter_first account (drop row (all_rows tree.now)) }
{
    match kind_at(tree, row) {
        Kind::File => Err(Cause::NotDirectory),
        Kind::Directory if may_at(tree, row, account, Right::X) => Ok(()),
        Kind::Directory => Err(Cause::Access),
    }
}

// From a place to its child of a name.
fn step(tree: &[u8], account: Account, from: Spot, name: &[u8]) -> Result<Spot, Cause>
    requires { Used tree.now from.row }
    ensures { outcome result ≡ step_in account (all_rows tree.now) from name.now }
{
    let above = from.row;
    enter(tree, account, above)?;
    match find_child(tree, above, name) {
        Ok(row) => Ok(Spot { row, above }),
        Err(_) => Err(Cause::Missing),
    }
}

// The walk to the place at a path.
pub fn walk(tree: &[u8], account: Account, path: &[u8]) -> Result<Spot, Cause>
    requires { Sized tree.now }
    ensures { outcome result ≡ walk_in account (all_rows tree.now) path.now }
{
    let mut spot = Spot { row: 0, above: 0 };
    let mut names = Names::of(path);
    while let Some(name) = names.next() {
        spot = step(tree, account, spot, name)?;
    }
    Ok(spot)
}

// The walk to the directory that the last name of a path is in.
pub fn parent_walk(tree: &[u8], account: Account, path: &[u8]) -> Result<Spot, Cause>
    requires { Sized tree.now }
    ensures { outcome result ≡ parent_walk_in account (all_rows tree.now) path.now }
{
    let slash = syntax::last_slash(path);
    let spot = walk(tree, account, &path[..slash])?;
    enter(tree, account, spot.row)?;
    Ok(spot)
}
