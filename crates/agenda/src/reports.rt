// What is printed for a call, whether the program goes on behind it, and what a turn that prints comes to.
ghost use Rattle.std.specs.Prelude.{◌≡◌, ◌+◌, ◌≤◌, length};
ghost use Rattle.shell.specs.Replies.{told};
ghost use Rattle.printing.specs.Printed.{Printed};
ghost use Rattle.agenda.specs.Agenda.{refusal, list_report, report_text, goes_on, print_step};

use crate::{Call, Place, Step};
use printing::{is_missing, write_listed, write_reply};
use shell::{Answer, Refusal};

// Writes the refusal of a setup whose line of this number is wrong.
pub fn refuse(line: usize, answer: &[u8], out: &mut [u8]) -> usize
    requires { length answer.now + 32 ≤ length out.old }
    ensures { Printed (refusal line) out.old out.new result }
{
    write_reply(Err(Refusal::WrongLine(line)), answer, out)
}

// Writes a line of the listing, where there is one.
#[tactic(auto, unfolding(crate::specs::Agenda::list_report))]
fn report_listed(r: Answer, answer: &[u8], out: &mut [u8]) -> usize
    requires { length answer.now + 32 ≤ length out.old }
    ensures { Printed (list_report (told r) answer.now) out.old out.new result }
{
    if is_missing(r) {
        return 0;
    }
    write_listed(r, answer, out)
}

// Writes what is printed for a call's answer in front of a buffer, and tells its length.
#[tactic(auto, unfolding(crate::specs::Agenda::report_text))]
pub fn report(call: Call, r: Answer, answer: &[u8], out: &mut [u8]) -> usize
    requires { length answer.now + 32 ≤ length out.old }
    ensures { Printed (report_text call (told r) answer.now) out.old out.new result }
{
    match call {
        Call::Run { .. } => write_reply(r, answer, out),
        Call::List { .. } => report_listed(r, answer, out),
    }
}

// Whether the program goes on behind a call: a line of the listing that is missing ends it.
#[tactic(auto, unfolding(crate::specs::Agenda::goes_on))]
pub fn goes_on(call: Call, r: Answer) -> bool
    ensures { result ≡ goes_on call (told r) }
{
    match call {
        Call::Run { .. } => true,
        Call::List { .. } => !is_missing(r),
    }
}

// What a turn that prints comes to, by whether its report was printed and whether there is more to do behind it. Two tests beside a
// place, as `print_step` has them, of which theorems speak.
#[tactic(auto, unfolding(crate::specs::Agenda::print_step))]
pub fn after_print(printed: bool, more: bool, then: Place) -> Step
    ensures { result ≡ print_step printed more then }
{
    if !printed {
        return Step::Failed;
    }
    if more {
        return Step::On(then);
    }
    Step::Ended
}
