// What is to be done next in the command lines: the next line is run, unless it has been answered, or more of it is read.
ghost use Rattle.std.specs.Prelude.{◌≡◌, length};
ghost use Rattle.agenda.specs.Agenda.{PlaceHeld, lines_from, listed_from, taken, unended, line_next};

use crate::input::next_line;
use crate::{Call, Next, NextLine, Phase, Place};

// The place from which the command lines go on, where one begins.
pub fn lines_from(at: Place, from: usize) -> Place
    ensures { result ≡ lines_from at from }
{
    Place {
        from,
        passing: false,
        phase: Phase::Lines,
        ..at
    }
}

// The place at a line of the listing.
pub fn listed_from(at: Place, n: usize) -> Place
    ensures { result ≡ listed_from at n }
{
    Place {
        passing: false,
        phase: Phase::Listing(n),
        ..at
    }
}

// The line up to its end is run, unless it has been answered, and what is left follows.
#[tactic(auto, unfolding(crate::specs::Agenda::taken))]
fn taken(at: Place, end: usize, rest: Place) -> Next
    ensures { result ≡ taken at end rest }
{
    if at.passing {
        return Next::On(rest);
    }
    Next::Call {
        call: Call::Run { from: at.from, end },
        then: rest,
    }
}

// What to do with a line whose end has not been read. One that fills the window is too long for any form, as its first bytes are: these
// are run, and the others passed over.
#[tactic(auto, unfolding(crate::specs::Agenda::unended))]
fn unended(window: &[u8], at: Place) -> Next
    requires { PlaceHeld at (length window.now) }
    ensures { result ≡ unended (length window.now) at }
{
    if at.to - at.from < window.len() {
        return Next::Read;
    }
    let rest = Place {
        from: at.to,
        to: at.to,
        ended: false,
        passing: true,
        phase: Phase::Lines,
    };
    taken(at, at.to, rest)
}

// What to do in the command lines.
#[tactic(auto, unfolding(crate::specs::Agenda::line_next, crate::specs::Agenda::found_line))]
pub fn line_next(window: &[u8], at: Place) -> Next
    requires { PlaceHeld at (length window.now) }
    ensures { result ≡ line_next window.now at }
{
    match next_line(&window[..at.to], at.from, at.ended) {
        NextLine::Line { end } => taken(at, end, lines_from(at, end + 1)),
        NextLine::Last => taken(at, at.to, lines_from(at, at.to)),
        NextLine::More => unended(window, at),
        NextLine::Nothing => Next::On(listed_from(at, 0)),
    }
}
