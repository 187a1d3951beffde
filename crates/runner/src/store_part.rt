// Any command on a store's bytes.
ghost use Rattle.std.specs.Prelude.{◌≤◌, ◌<◌, length};
ghost use Rattle.commands.specs.Meaning.{SomeShellCommand, SomeCommand};
ghost use Rattle.stored_header.specs.Stored.{SomeStore};
ghost use Rattle.runner.specs.Runner.{StoreShellDone, CommandDone};

use crate::sessions_part::in_session;
use accounts::Caller;
use commands::{Command, ShellCommand};
use shell::Answer;
use shell_runner::shell_command;
use store::HEADER;
use stored_header::account_command;

// A command of the shell on the store's tree.
fn in_shell(
    store: &mut [u8],
    caller: Caller,
    line: &[u8],
    command: ShellCommand,
    answer: &mut [u8],
) -> Answer
    requires some_store { SomeStore store.old }
    requires some_shell_command { SomeShellCommand line.now command }
    requires in_bounds { 4096 ≤ length answer.old }
    ensures { StoreShellDone caller line.now command
        store.old answer.old result store.new answer.new }
{
    shell_command(&mut store[HEADER..], caller, line, command, answer)
}

// A command, by its kind.
pub fn run_command(
    store: &mut [u8],
    caller: Caller,
    line: &[u8],
    command: Command,
    answer: &mut [u8],
) -> Answer
    requires some_store { SomeStore store.old }
    requires some_command { SomeCommand line.now command }
    requires in_bounds { 4096 ≤ length answer.old }
    requires uid_bound { caller.account.uid.0 < 16 }
    ensures { CommandDone caller line.now command
        store.old answer.old result store.new answer.new }
{
    match command {
        Command::Shell(c) => in_shell(store, caller, line, c, answer),
        Command::Account(c) => account_command(store, caller, line, c),
        Command::Entry(c) => in_session(store, caller, line, c, answer),
    }
}
