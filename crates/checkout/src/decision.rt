// The first part of `co`, a decision: the room for the copies, by the person, and the entry, by the account. No copies are made yet:
// how large an array they need is known by the entry's row.
ghost use Rattle.std.specs.Prelude.{◌≡◌};
ghost use Rattle.tree.specs.TreeBytes.{Whole, PathText, EntryPathText, WhicheverEntry};
ghost use Rattle.tree.specs.Result.{outcome};
ghost use Rattle.checkout.specs.Checkout.{entry_spot, WhicheverCopy, SiteTold};

use accounts::Account;
use copying::Copier;
use gaps::room_for;
use placing::Site;
use tree::Cause;
use walks::{Spot, readable_at, walk};

// The account's walk to an entry, which it must be able to read.
fn readable_entry(tree: &[u8], account: Account, entry: &[u8]) -> Result<Spot, Cause>
    requires whole { Whole tree.now }
    requires entry_path_text { EntryPathText entry.now }
    ensures { WhicheverEntry tree.now entry.now (λ t e. outcome result ≡ entry_spot account t e) }
{
    let spot = walk(tree, account, entry)?;
    if !readable_at(tree, spot.row, account) {
        return Err(Cause::Access);
    }
    Ok(spot)
}

// The person's part, then the account's.
pub fn find_site(tree: &[u8], who: Copier, entry: &[u8], to: &[u8]) -> Result<Site, Cause>
    requires whole { Whole tree.now }
    requires entry_path_text { EntryPathText entry.now }
    requires path_text { PathText to.now }
    ensures { WhicheverCopy tree.now entry.now to.now
        (λ t e d. SiteTold who t e d tree.now entry.now to.now result) }
{
    let gap = room_for(tree, who.caller.account, to)?;
    let filed = readable_entry(tree, who.reader, entry)?;
    Ok(Site {
        filed: filed.row,
        row: gap.row,
        at: gap.at,
        depth: gap.depth,
    })
}
