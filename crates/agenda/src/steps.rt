// What is to be done next, by the phase that the program is in.
ghost use Rattle.std.specs.Prelude.{◌≡◌, ◌+◌, ◌-◌, ◌≤◌, length};
ghost use Rattle.agenda.specs.Agenda.{PlaceHeld, ReadFits, open_line, setup_next, list_next, next_of, setup_from, read_place, read_step};

use crate::input::next_line;
use crate::lines_ahead::{line_next, listed_from};
use crate::{Call, Next, NextLine, Phase, Place, Step};

// What to do with a setup line whose end has not been read: no good line fills the window.
#[tactic(auto, unfolding(crate::specs::Agenda::open_line))]
fn open_line(window: &[u8], at: Place, lines: usize) -> Next
    requires { PlaceHeld at (length window.now) }
    ensures { result ≡ open_line (length window.now) at lines }
{
    if at.to - at.from < window.len() {
        return Next::Read;
    }
    Next::Wrong { lines }
}

// What to do in the setup.
#[tactic(auto, unfolding(crate::specs::Agenda::setup_next, crate::specs::Agenda::found_setup_line))]
fn setup_next(window: &[u8], at: Place, kind: u8, lines: usize) -> Next
    requires { PlaceHeld at (length window.now) }
    ensures { result ≡ setup_next window.now at kind lines }
{
    match next_line(&window[..at.to], at.from, at.ended) {
        NextLine::Line { end } => Next::Line { end, kind, lines },
        NextLine::Last => Next::Wrong { lines },
        NextLine::More => open_line(window, at, lines),
        NextLine::Nothing => Next::Wrong { lines },
    }
}

// What to do at a line of the listing: each of at most 256 nodes has one, and one call more says that there is none.
#[tactic(auto, unfolding(crate::specs::Agenda::list_next))]
fn list_next(at: Place, n: usize) -> Next
    ensures { result ≡ list_next at n }
{
    if n < 257 {
        return Next::Call {
            call: Call::List { n },
            then: listed_from(at, n + 1),
        };
    }
    Next::Over
}

// What the program does next.
#[tactic(auto, unfolding(crate::specs::Agenda::next_of, crate::specs::Agenda::by_phase))]
pub fn next(window: &[u8], at: Place) -> Next
    requires { PlaceHeld at (length window.now) }
    ensures { result ≡ next_of window.now at }
{
    match at.phase {
        Phase::Setup { kind, lines } => setup_next(window, at, kind, lines),
        Phase::Lines => line_next(window, at),
        Phase::Listing(n) => list_next(at, n),
    }
}

// The place behind a setup line of a kind, with how many lines there were.
pub fn setup_from(at: Place, from: usize, kind: u8, lines: usize) -> Place
    ensures { result ≡ setup_from at from kind lines }
{
    Place {
        from,
        passing: false,
        phase: Phase::Setup { kind, lines },
        ..at
    }
}

// The place when so many bytes have been read behind those that are left, which stand at the window's front.
fn after_read(at: Place, got: usize) -> Place
    requires from_le_to { at.from ≤ at.to }
    requires got_bound { (at.to - at.from) + got ≤ 65536 }
    ensures { result ≡ read_place at got }
{
    Place {
        from: 0,
        to: at.to - at.from + got,
        ended: got == 0,
        ..at
    }
}

// What a read comes to: it gave so many bytes, or none as it failed.
#[tactic(auto, unfolding(crate::specs::Agenda::read_step))]
pub fn read_step(at: Place, got: Option<usize>) -> Step
    requires from_le_to { at.from ≤ at.to }
    requires read_fits { ReadFits at got }
    ensures { result ≡ read_step at got }
{
    match got {
        Some(count) => Step::On(after_read(at, count)),
        None => Step::Failed,
    }
}
