// Which roles dominate which, by the setup's role pairs.
ghost use Rattle.std.specs.Prelude.{◌≡◌};
ghost use Rattle.accounts.specs.Closure.{rows_of};
ghost use Rattle.header.specs.HeaderBytes.{Headed, Whose};

use accounts::Dominance;
use dominance::closed_bytes;
use store::PAIRS;

// Dominance closed from the pairs, which stand behind their number.
pub fn dominance_of(header: &[u8]) -> Dominance
    requires { Headed header.now }
    ensures { Whose header.now (λ u z. result.rows ≡ rows_of u.pairs) }
{
    let n = header[PAIRS] as usize;
    closed_bytes(&header[PAIRS + 1..], n)
}
