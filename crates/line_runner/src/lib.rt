// A typed command of a known caller carried out on a store's bytes: without short paths from its line, and with them from a second
// text, in which the working directory stands in front.
#![tactic(auto)]

ghost use Rattle.std.specs.Prelude.{◌≤◌, ◌<◌, length};
ghost use Rattle.stored_header.specs.Stored.{SomeStore};
ghost use Rattle.line_runner.specs.LineDone.{SomeWhole, SomeTyped, WholeDone, LineDone};

use accounts::Caller;
use commands::{Typed, command_of};
use runner::run_command;
use shell::Answer;
use stored_header::directory_in;
use tree::Cause;
use whole_paths::{TEXT, any_short, make_whole};

// A command whose paths are whole in a text.
fn run_whole(
    store: &mut [u8],
    caller: Caller,
    text: &[u8],
    typed: Typed,
    answer: &mut [u8],
) -> Answer
    requires some_store { SomeStore store.old }
    requires some_whole { SomeWhole text.now typed }
    requires in_bounds { 4096 ≤ length answer.old }
    requires uid_bound { caller.account.uid.0 < 16 }
    ensures { WholeDone caller text.now typed
        store.old answer.old result store.new answer.new }
{
    run_command(store, caller, text, command_of(typed), answer)
}

// One with short paths, made whole first.
fn run_short(
    store: &mut [u8],
    caller: Caller,
    line: &[u8],
    typed: Typed,
    answer: &mut [u8],
) -> Answer
    requires some_store { SomeStore store.old }
    requires some_typed { SomeTyped line.now typed }
    requires in_bounds { 4096 ≤ length answer.old }
    requires uid_bound { caller.account.uid.0 < 16 }
    ensures { LineDone caller line.now typed
        store.old answer.old result store.new answer.new }
{
    let mut text = [0u8; TEXT];
    let account = caller.account;
    let moved = make_whole(directory_in(store, account.uid), line, typed, &mut text)?;
    run_whole(store, caller, &text, moved, answer)
}

// A command as its line has it.
pub fn run_line(
    store: &mut [u8],
    caller: Caller,
    line: &[u8],
    typed: Typed,
    answer: &mut [u8],
) -> Answer
    requires some_store { SomeStore store.old }
    requires some_typed { SomeTyped line.now typed }
    requires in_bounds { 4096 ≤ length answer.old }
    requires uid_bound { caller.account.uid.0 < 16 }
    ensures { LineDone caller line.now typed
        store.old answer.old result store.new answer.new }
{
    if any_short(line, typed) {
        return run_short(store, caller, line, typed, answer);
    }
    run_whole(store, caller, line, typed, answer)
}
