// The commands on entries, in a session, on a store's bytes.
ghost use Rattle.std.specs.Prelude.{◌≤◌, ◌<◌, length};
ghost use Rattle.commands.specs.Meaning.{SomeEntryCommand};
ghost use Rattle.stored_header.specs.Stored.{SomeStore};
ghost use Rattle.runner.specs.Runner.{HeldRole, SessionDone};

use accounts::{Caller, Role, Session};
use commands::EntryCommand;
use entry_runner::entry_command;
use shell::{Answer, Refusal};
use stored_header::{dominance_in, session_in};
use tree::Cause;

// A command in the caller's session, which is that of a role.
fn as_role(
    store: &mut [u8],
    caller: Caller,
    role: Role,
    line: &[u8],
    command: EntryCommand,
    answer: &mut [u8],
) -> Answer
    requires some_store { SomeStore store.old }
    requires some_entry_command { SomeEntryCommand line.now command }
    requires in_bounds { 4096 ≤ length answer.old }
    requires role_bound { role.0 < 8 }
    requires held_role { HeldRole caller role store.old }
    ensures { SessionDone caller line.now command
        store.old answer.old result store.new answer.new }
{
    let dominance = dominance_in(store);
    let account = dominance.account(role);
    let session = Session(Some(role));
    entry_command(
        store, caller, account, session, dominance, line, command, answer,
    )
}

// A command in the caller's session, refused without one.
pub fn in_session(
    store: &mut [u8],
    caller: Caller,
    line: &[u8],
    command: EntryCommand,
    answer: &mut [u8],
) -> Answer
    requires some_store { SomeStore store.old }
    requires some_entry_command { SomeEntryCommand line.now command }
    requires in_bounds { 4096 ≤ length answer.old }
    requires uid_bound { caller.account.uid.0 < 16 }
    ensures { SessionDone caller line.now command
        store.old answer.old result store.new answer.new }
{
    let account = caller.account;
    match session_in(store, account.uid).0 {
        None => Err(Refusal::For(Cause::NoSession)),
        Some(role) => as_role(store, caller, role, line, command, answer),
    }
}
