// What the program is asked for by its arguments.
ghost use Rattle.std.specs.Prelude.{◌≡◌};
ghost use Rattle.agenda.specs.Agenda.{asked_by};

use crate::Asked;
use buffers::same;

// What the program is asked for: by how many arguments it was started with, its own name among them, and the first behind that.
#[tactic(auto, unfolding(crate::specs::Agenda::asked_by, syntax::specs::Pieces::bytes))]
pub fn asked_by(count: usize, first: &[u8]) -> Asked
    ensures { result ≡ asked_by count first.now }
{
    if count < 2 {
        return Asked::Run;
    }
    if count == 2 && same(first, b"--help") {
        return Asked::Help;
    }
    Asked::Wrong
}
