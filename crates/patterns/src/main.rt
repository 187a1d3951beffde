// The program: reads its input into a window, makes the library's calls, and prints what is printed for them. What it does next, what is
// printed, and what a read or a print comes to, `agenda` decides.
#![tactic(auto)]

mod failures;
mod streams;
mod usage;

ghost use Rattle.std.specs.Prelude.{◌≡◌, false, ◌≤◌, ◌<◌, suc, length, take};
ghost use Rattle.syntax.specs.Parts.{part};
ghost use Rattle.setup.specs.Setup.{no_setup};
ghost use Rattle.setup.specs.SetupStep.{setup_step};
ghost use Rattle.store.specs.SetupHeader.{reading_in, headed};
ghost use Rattle.setups.specs.LineRead.{BegunStore, line_call};
ghost use Rattle.shell.specs.Replies.{told};
ghost use Rattle.library.specs.CallBytes.{called_as};
ghost use Rattle.printing.specs.Printed.{in_front};
ghost use Rattle.agenda.specs.Agenda.{PlaceHeld, CallHeld, report_text, refusal};
ghost use Rattle.agenda.specs.Conversation.{made, first_place};
ghost use Rattle.patterns.specs.Buffers.{standard_output, lent, Answering, Reporting, Held, Wide};
ghost use Rattle.patterns.specs.Turns.{Reads, Reported, Makes, LineMade, Turns, most_turns, Serves};

use agenda::steps::next;
use agenda::{
    Asked, Call, Next, Phase, Place, Step, after_print, asked_by, goes_on, lines_from, read_step,
    refuse, report, setup_from,
};
use buffers::move_bytes;
use failures::fail;
use setups::{LineRead, begin_store, setup_line};
use shell::{Answer, Refusal};
use streams::{Stream, argument, argument_count, read, write_all};

// Prints the first n bytes of a buffer, which are what is printed for a call, and answers whether all was printed; if not it says why.
fn print(
    rt: &HostRuntime,
    to: Stream,
    out: &[u8],
    n: usize,
    call: Call,
    r: Answer,
    answer: &[u8],
) -> bool
    requires to_value { to ≡ standard_output }
    requires n_in_bounds { n ≤ length out.now }
    requires out_value { take n out.now ≡ report_text call (told r) answer.now }
{
    match write_all(rt, to, &out[..n]) {
        Ok(()) => true,
        Err(why) => {
            fail(rt, "patterns: cannot write to standard output", why);
            false
        }
    }
}

// Moves what is left to the front of the window and reads once behind it; says why where that fails.
fn read_on(rt: &HostRuntime, window: &mut [u8], at: Place) -> Step
    requires { PlaceHeld at (length window.old) }
    ensures { Reads result at window.old window.new }
{
    let from = at.from;
    let kept = at.to - from;
    move_bytes(window, from, 0, kept);
    let got = read(rt, &mut window[kept..]);
    read_step(at, got)
}

// Makes a call of the library.
fn answer_to(store: &mut [u8], window: &[u8], call: Call, answer: &mut [u8]) -> Answer
    requires { CallHeld call (length window.now) }
    ensures { called_as result store.new answer.new ≡ made window.now store.old answer.old call }
{
    match call {
        Call::Run { from, end } => library::run(store, &window[from..end], answer),
        Call::List { n } => library::listing(store, n, answer),
    }
}

// Makes a call and prints what is printed for it.
fn make_call(
    rt: &HostRuntime,
    store: &mut [u8],
    window: &[u8],
    call: Call,
    then: Place,
    answer: &mut [u8],
    out: &mut [u8],
) -> Step
    requires call_held { CallHeld call (length window.now) }
    requires answering { Answering answer.old }
    requires reporting { Reporting out.old }
    ensures { Makes result call then (lent window.now store.old answer.old out.old)
        (lent window.now store.new answer.new out.new) }
{
    let r = answer_to(store, window, call, answer);
    let n = report(call, r, answer, out);
    let printed = print(rt, Stream::Output, out, n, call, r, answer);
    after_print(printed, goes_on(call, r), then)
}

// Prints which line of the setup is wrong: the one behind so many.
fn refused(rt: &HostRuntime, at: Place, lines: usize, answer: &[u8], out: &mut [u8]) -> Step
    requires lines_bound { lines < 18446744073709551615 }
    requires answering { Answering answer.now }
    requires reporting { Reporting out.old }
    ensures reported { Reported result false at }
    ensures out_after { out.new ≡ in_front (refusal (suc lines)) out.old }
{
    let n = refuse(lines + 1, answer, out);
    // A refusal is what is printed for a line that is answered so.
    let call = Call::Run { from: 0, end: 0 };
    let wrong = Err(Refusal::WrongLine(lines + 1));
    let printed = print(rt, Stream::Output, out, n, call, wrong, answer);
    after_print(printed, false, at)
}

// Reads the line of the setup that ends at this byte 10.
fn read_setup(
    rt: &HostRuntime,
    store: &mut [u8],
    window: &[u8],
    at: Place,
    end: usize,
    kind: u8,
    lines: usize,
    answer: &[u8],
    out: &mut [u8],
) -> Step
    requires place_held { PlaceHeld at (length window.now) }
    requires answering { Answering answer.now }
    requires reporting { Reporting out.old }
    requires begun_store { BegunStore store.old }
    requires kind_bound { kind ≤ 3 }
    requires lines_bound { lines < 18446744073709551615 }
    requires from_le_end { at.from ≤ end }
    requires end_lt_to { end < at.to }
    ensures { LineMade result at end lines (line_call store.old (setup_step (part window.now at.from end) (reading_in kind store.old)))
        (lent window.now store.old answer.now out.old)
        (lent window.now store.new answer.now out.new) }
{
    let Some(read) = setup_line(store, kind, &window[at.from..end]) else {
        return refused(rt, at, lines, answer, out);
    };
    match read {
        LineRead::More(next) => Step::On(setup_from(at, end + 1, next, lines + 1)),
        LineRead::End => Step::On(lines_from(at, end + 1)),
    }
}

// Does what is to be done next.
fn turn(
    rt: &HostRuntime,
    store: &mut [u8],
    window: &mut [u8],
    at: Place,
    answer: &mut [u8],
    out: &mut [u8],
) -> Step
    requires { Held at (lent window.old store.old answer.old out.old) }
    ensures { Turns result at (lent window.old store.old answer.old out.old)
        (lent window.new store.new answer.new out.new) }
{
    match next(window, at) {
        Next::Call { call, then } => make_call(rt, store, window, call, then, answer, out),
        Next::On(then) => Step::On(then),
        Next::Read => read_on(rt, window, at),
        Next::Over => Step::Ended,
        Next::Line { end, kind, lines } => read_setup(
            rt, store, window, at, end, kind, lines, answer, out,
        ),
        Next::Wrong { lines } => refused(rt, at, lines, answer, out),
    }
}

// The whole program over its buffers. A proved loop has to end and an input need not, so this one has more turns than any run uses.
fn serve(rt: &HostRuntime, store: &mut [u8], window: &mut [u8], answer: &mut [u8], out: &mut [u8])
    requires { Wide (lent window.old store.old answer.old out.old) }
    ensures { Serves most_turns first_place (lent window.old (headed no_setup store.old) answer.old out.old)
        (lent window.new store.new answer.new out.new) }
{
    begin_store(store);
    let mut at = Place {
        from: 0,
        to: 0,
        ended: false,
        passing: false,
        phase: Phase::Setup { kind: 0, lines: 0 },
    };
    for _turn in 0..u64::MAX {
        match turn(rt, store, window, at, answer, out) {
            Step::On(then) => at = then,
            Step::Ended => return,
            Step::Failed => return,
        }
    }
}

// Runs the program over buffers of its own.
fn run(rt: &HostRuntime) {
    let mut store = [0u8; 65536];
    let mut window = [0u8; 65536];
    let mut answer = [0u8; 4096];
    let mut out = [0u8; 4128];
    serve(rt, &mut store, &mut window, &mut answer, &mut out);
}

fn main(rt: HostRuntime) {
    let mut first = [0u8; 4096];
    let n = argument(&rt, 1, &mut first);
    match asked_by(argument_count(&rt), &first[..n]) {
        Asked::Run => run(&rt),
        Asked::Help => usage::help(&rt, Stream::Output),
        Asked::Wrong => usage::wrong(&rt, Stream::Error),
    }
}
