// A parsed command on entries carried out.
ghost use Rattle.std.specs.Prelude.{◌≤◌, length};
ghost use Rattle.commands.specs.Meaning.{SomeEntryCommand};
ghost use Rattle.entry_runner.specs.EntryDone.{ActsBy, EntryDone};

use crate::lent::{add_in, co_in, del_in, up_in};
use accounts::{Account, Caller, Dominance, Session};
use commands::EntryCommand;
use directory_commits::commit;
use shell::Answer;

// One of the commands on entries, for the session's account.
pub fn entry_command(
    store: &mut [u8],
    caller: Caller,
    account: Account,
    session: Session,
    dominance: Dominance,
    line: &[u8],
    command: EntryCommand,
    answer: &mut [u8],
) -> Answer
    requires acts_by { ActsBy store.old caller account session dominance }
    requires some_entry_command { SomeEntryCommand line.now command }
    requires in_bounds { 4096 ≤ length answer.old }
    ensures { EntryDone caller line.now command account session dominance
        store.old answer.old result store.new answer.new }
{
    match command {
        EntryCommand::Add {
            working,
            entry,
            role,
        } => add_in(
            store,
            caller,
            account,
            session.dominates(dominance, role),
            working.of(line),
            entry.of(line),
            role,
        ),
        EntryCommand::Co { entry, to } => co_in(
            store,
            caller,
            account,
            entry.of(line),
            to.of(line),
        ),
        EntryCommand::Commit { working } => commit(
            store,
            caller,
            account,
            working.of(line),
            answer,
        ),
        EntryCommand::Up { working } => up_in(store, caller, account, working.of(line)),
        EntryCommand::Del { entry } => del_in(store, account, entry.of(line)),
    }
}
