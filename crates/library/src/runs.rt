// `run`: a command line on a store.
ghost use Rattle.std.specs.Prelude.{◌≡◌, ◌≤◌, length};
ghost use Rattle.calls.specs.Calls.{run_call};
ghost use Rattle.stored_header.specs.Stored.{SomeStore};
ghost use Rattle.line_runner.specs.LineDone.{SomeTyped};
ghost use Rattle.library.specs.CallBytes.{called_as};
ghost use Rattle.library.specs.CallerBytes.{CalledBy};

use crate::LEAST_ROOM;
use accounts::Uid;
use commands::{CommandLine, Typed, parse};
use line_runner::run_line;
use shell::{Answer, Refusal};
use sound_store::holds_store;
use stored_header::caller_in;
use tree::Cause;

// A command by whom the setup knows under an account number.
fn by_caller(store: &mut [u8], uid: Uid, line: &[u8], typed: Typed, answer: &mut [u8]) -> Answer
    requires some_store { SomeStore store.old }
    requires some_typed { SomeTyped line.now typed }
    requires in_bounds { 4096 ≤ length answer.old }
    ensures { CalledBy uid line.now typed store.old answer.old result store.new answer.new }
{
    match caller_in(store, uid) {
        None => Err(Refusal::For(Cause::UnknownCaller)),
        Some(caller) => run_line(store, caller, line, typed, answer),
    }
}

// Carries out a command line; a text that it gives stands in front of the answer.
pub fn run(store: &mut [u8], line: &[u8], answer: &mut [u8]) -> Answer
    ensures { called_as result store.new answer.new ≡ run_call store.old line.now answer.old }
{
    if answer.len() < LEAST_ROOM {
        return Err(Refusal::For(Cause::ShortAnswer));
    }
    if !holds_store(store) {
        return Err(Refusal::For(Cause::Unsound));
    }
    match parse(line) {
        None => Err(Refusal::For(Cause::NoForm)),
        Some(CommandLine { caller, typed }) => by_caller(store, caller, line, typed, answer),
    }
}
