// Who calls, the sessions, the working directories and the roles, on a store's bytes: its header is lent.
#![tactic(auto)]

ghost use Rattle.std.specs.Prelude.{◌<◌};
ghost use Rattle.syntax.specs.Parts.{Inside, span_text};
ghost use Rattle.commands.specs.Meaning.{SomeAccountCommand};
ghost use Rattle.tree.specs.TreeBytes.{PathText};
ghost use Rattle.stored_header.specs.Stored.{SomeStore, CallerTold, SessionOf, DirectoryOf, RowsOf, Entering, DirectoryPut, LoginDone, LogoutDone, CdDone, AccountDone};

use accounts::{Account, Caller, Dominance, Role, Session, Uid};
use attributes::{Deed, may_do};
use commands::AccountCommand;
use header::{caller_of, directory_of, dominance_of, login, logout, session_of, set_directory};
use shell::Answer;
use store::HEADER;
use syntax::Span;
use tree::Cause;
use walks::Spot;

// Who an account number is, by the store's header.
pub fn caller_in(store: &[u8], uid: Uid) -> Option<Caller>
    requires { SomeStore store.now }
    ensures { CallerTold store.now uid result }
{
    caller_of(&store[..HEADER], uid)
}

// The session of an account.
pub fn session_in(store: &[u8], uid: Uid) -> Session
    requires some_store { SomeStore store.now }
    requires uid_bound { uid.0 < 16 }
    ensures { SessionOf store.now uid result }
{
    session_of(&store[..HEADER], uid)
}

// The working directory of an account.
pub fn directory_in(store: &[u8], uid: Uid) -> &[u8]
    requires some_store { SomeStore store.now }
    requires uid_bound { uid.0 < 16 }
    ensures { DirectoryOf store.now uid result.now }
{
    directory_of(&store[..HEADER], uid)
}

// Which roles dominate which.
pub fn dominance_in(store: &[u8]) -> Dominance
    requires { SomeStore store.now }
    ensures { RowsOf store.now result }
{
    dominance_of(&store[..HEADER])
}

// `login` on the store's header.
fn log_in(store: &mut [u8], caller: Caller, role: Role, line: &[u8], password: Span) -> Answer
    requires some_store { SomeStore store.old }
    requires uid_bound { caller.account.uid.0 < 16 }
    requires role_bound { role.0 < 8 }
    requires inside { Inside password line.now }
    ensures { LoginDone caller role (span_text line.now password) store.old result store.new }
{
    let account = caller.account;
    login(&mut store[..HEADER], account.uid, role, password.of(line))
}

// `logout` on the store's header.
fn log_out(store: &mut [u8], caller: Caller) -> Answer
    requires some_store { SomeStore store.old }
    requires uid_bound { caller.account.uid.0 < 16 }
    ensures { LogoutDone caller store.old result store.new }
{
    let account = caller.account;
    logout(&mut store[..HEADER], account.uid)
}

// Whether an account may enter the directory at a path, or why it may not.
fn may_enter(store: &[u8], account: Account, path: &[u8]) -> Result<Spot, Cause>
    requires some_store { SomeStore store.now }
    requires path_text { PathText path.now }
    ensures { Entering store.now account path.now result }
{
    may_do(&store[HEADER..], account, path, Deed::Enter)
}

// Replaces the working directory of an account.
fn put_directory(store: &mut [u8], uid: Uid, path: &[u8])
    requires some_store { SomeStore store.old }
    requires path_text { PathText path.now }
    requires uid_bound { uid.0 < 16 }
    ensures { DirectoryPut store.old uid path.now store.new }
{
    set_directory(&mut store[..HEADER], uid, path);
}

// `cd`: a directory that the caller may enter becomes the working directory.
fn change_directory(store: &mut [u8], caller: Caller, path: &[u8]) -> Answer
    requires some_store { SomeStore store.old }
    requires path_text { PathText path.now }
    requires uid_bound { caller.account.uid.0 < 16 }
    ensures { CdDone caller path.now store.old result store.new }
{
    let account = caller.account;
    may_enter(store, account, path)?;
    put_directory(store, account.uid, path);
    Ok(None)
}

// A command about the caller's session and working directory.
pub fn account_command(
    store: &mut [u8],
    caller: Caller,
    line: &[u8],
    command: AccountCommand,
) -> Answer
    requires some_store { SomeStore store.old }
    requires some_account_command { SomeAccountCommand line.now command }
    requires uid_bound { caller.account.uid.0 < 16 }
    ensures { AccountDone caller line.now command store.old result store.new }
{
    match command {
        AccountCommand::Login { role, password } => log_in(store, caller, role, line, password),
        AccountCommand::Logout => log_out(store, caller),
        AccountCommand::Cd { path } => change_directory(store, caller, path.of(line)),
    }
}
