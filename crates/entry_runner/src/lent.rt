// The commands that work on the tree alone, on a store's bytes: the tree is lent.
ghost use Rattle.std.specs.Prelude.{◌<◌};
ghost use Rattle.tree.specs.TreeBytes.{PathText, EntryPathText};
ghost use Rattle.stored_header.specs.Stored.{ActsIn};
ghost use Rattle.entry_runner.specs.EntryDone.{ActsTold, ActsForSomeone, AddDone, CoDone, UpDone, DelDone};

use accounts::{Account, Caller, Role};
use adding::add;
use checkout::co;
use entries::{del, up};
use shell::Answer;
use store::HEADER;

// `add,w,e,r`; `dominated` says whether the session's role dominates the entry's.
pub fn add_in(
    store: &mut [u8],
    caller: Caller,
    account: Account,
    dominated: bool,
    working: &[u8],
    entry: &[u8],
    role: Role,
) -> Answer
    requires acts_told { ActsTold store.old caller account dominated role }
    requires path_text { PathText working.now }
    requires entry_path_text { EntryPathText entry.now }
    requires role_bound { role.0 < 8 }
    ensures { AddDone caller account dominated working.now entry.now role store.old result store.new }
{
    add(
        &mut store[HEADER..],
        caller,
        account,
        dominated,
        working,
        entry,
        role,
    )
}

// `co,e,d`: an entry is copied to a path.
pub fn co_in(store: &mut [u8], caller: Caller, account: Account, entry: &[u8], to: &[u8]) -> Answer
    requires acts_in { ActsIn store.old caller account }
    requires entry_path_text { EntryPathText entry.now }
    requires path_text { PathText to.now }
    ensures { CoDone caller account entry.now to.now store.old result store.new }
{
    co(&mut store[HEADER..], caller, account, entry, to)
}

// `up,w`: a working file takes the content of its entry.
pub fn up_in(store: &mut [u8], caller: Caller, account: Account, working: &[u8]) -> Answer
    requires acts_in { ActsIn store.old caller account }
    requires path_text { PathText working.now }
    ensures { UpDone caller account working.now store.old result store.new }
{
    up(&mut store[HEADER..], caller, account, working)
}

// `del,e`: an entry is taken out. Whose session it is matters to the account alone.
pub fn del_in(store: &mut [u8], account: Account, entry: &[u8]) -> Answer
    requires acts_for_someone { ActsForSomeone store.old account }
    requires entry_path_text { EntryPathText entry.now }
    ensures { DelDone account entry.now store.old result store.new }
{
    del(&mut store[HEADER..], account, entry)
}
