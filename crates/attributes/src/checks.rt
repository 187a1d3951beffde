// The checks of a command at one place: the walk there, then the tests of the deed, in document 01's order.
ghost use Rattle.std.specs.Prelude.{◌≡◌, ◌||◌, not};
ghost use Rattle.syntax.specs.Number.{set_gid};
ghost use Rattle.tree.specs.Result.{outcome, require};
ghost use Rattle.tree.specs.Node.{is_directory};
ghost use Rattle.tree.specs.RowAt.{row_at};
ghost use Rattle.tree.specs.TreeBytes.{HasRow, Whole, PathText, Whichever};
ghost use Rattle.attributes.specs.declared.Deed.TheVariants.{Write, Chmod, Enter};
ghost use Rattle.attributes.specs.Checks.{may_give, tests, may_do_at};

use crate::Deed;
use accounts::{Account, Gid, Right};
use syntax::has_set_gid;
use tree::{Cause, Kind, is_directory, kind_at, owner_at};
use walks::{Spot, may_at, owns_at, walk};

// Refused for the cause unless a test passes.
fn require(passes: bool, cause: Cause) -> Result<(), Cause>
    ensures { outcome result ≡ require passes cause }
{
    if passes { Ok(()) } else { Err(cause) }
}

// Whether a kind allows a mode: set-gid on directories only.
fn fits_mode(kind: Kind, mode: u16) -> bool
    ensures { result ≡ (is_directory kind || not (set_gid mode)) }
{
    is_directory(kind) || !has_set_gid(mode)
}

// Whether the account may give the place a group: root any, the owner one of the own.
fn may_give(tree: &[u8], row: usize, account: Account, group: Gid) -> bool
    requires { HasRow tree.now row }
    ensures { result ≡ may_give account group (row_at tree.now row).here }
{
    let uid = account.uid;
    uid.is_root() || (uid == owner_at(tree, row) && account.groups.has(group))
}

// A file, with w.
fn test_write(tree: &[u8], account: Account, row: usize) -> Result<(), Cause>
    requires { HasRow tree.now row }
    ensures { outcome result ≡ tests account Write (row_at tree.now row).here }
{
    require(!is_directory(kind_at(tree, row)), Cause::WrongKind)?;
    require(may_at(tree, row, account, Right::W), Cause::Access)
}

// A mode that the kind allows, by the owner or root.
fn test_chmod(tree: &[u8], account: Account, row: usize, mode: u16) -> Result<(), Cause>
    requires { HasRow tree.now row }
    ensures { outcome result ≡ tests account (Chmod mode) (row_at tree.now row).here }
{
    require(fits_mode(kind_at(tree, row), mode), Cause::WrongKind)?;
    require(owns_at(tree, row, account), Cause::Reserved)
}

// A directory, with x.
fn test_enter(tree: &[u8], account: Account, row: usize) -> Result<(), Cause>
    requires { HasRow tree.now row }
    ensures { outcome result ≡ tests account Enter (row_at tree.now row).here }
{
    require(is_directory(kind_at(tree, row)), Cause::WrongKind)?;
    require(may_at(tree, row, account, Right::X), Cause::Access)
}

// The tests of the deed.
fn test(tree: &[u8], account: Account, row: usize, deed: Deed) -> Result<(), Cause>
    requires { HasRow tree.now row }
    ensures { outcome result ≡ tests account deed (row_at tree.now row).here }
{
    match deed {
        Deed::Read => require(may_at(tree, row, account, Right::R), Cause::Access),
        Deed::Write => test_write(tree, account, row),
        Deed::Chmod(mode) => test_chmod(tree, account, row, mode),
        Deed::Chgrp(group) => require(may_give(tree, row, account, group), Cause::Reserved),
        Deed::Chown => require(account.uid.is_root(), Cause::Reserved),
        Deed::Enter => test_enter(tree, account, row),
    }
}

// Where the account may do the deed, or why it may not.
pub fn may_do(tree: &[u8], account: Account, path: &[u8], deed: Deed) -> Result<Spot, Cause>
    requires whole { Whole tree.now }
    requires path_text { PathText path.now }
    ensures { Whichever tree.now path.now (λ t p. outcome result ≡ may_do_at account deed t p) }
{
    let spot = walk(tree, account, path)?;
    test(tree, account, spot.row, deed)?;
    Ok(spot)
}
