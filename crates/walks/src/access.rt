// What an account may do at a row.
ghost use Rattle.std.specs.Prelude.{◌≡◌};
ghost use Rattle.tree.specs.Node.{allows, owns};
ghost use Rattle.tree.specs.Walk.{by_modes};
ghost use Rattle.tree.specs.RowAt.{row_at};
ghost use Rattle.tree.specs.TreeBytes.{HasRow};

use accounts::{Account, Right};
use tree::{Kind, group_at, kind_at, mode_at, owner_at};

// The access test.
pub fn may_at(tree: &[u8], i: usize, account: Account, right: Right) -> bool
    requires { HasRow tree.now i }
    ensures { result ≡ allows account right (row_at tree.now i).here }
{
    let owner = owner_at(tree, i);
    let group = group_at(tree, i);
    let mode = mode_at(tree, i);
    account.may(right, owner, group, mode)
}

// Whether a file may be read, with r, or a directory listed, with r and x.
pub fn readable_at(tree: &[u8], i: usize, account: Account) -> bool
    requires { HasRow tree.now i }
    ensures { result ≡ (by_modes account).readable (row_at tree.now i).here }
{
    may_at(tree, i, account, Right::R)
        && match kind_at(tree, i) {
            Kind::File => true,
            Kind::Directory => may_at(tree, i, account, Right::X),
        }
}

// Whether the account is the owner or root.
pub fn owns_at(tree: &[u8], i: usize, account: Account) -> bool
    requires { HasRow tree.now i }
    ensures { result ≡ owns account (row_at tree.now i).here }
{
    let uid = account.uid;
    uid.is_root() || uid == owner_at(tree, i)
}
