// The header's role pairs.
ghost use Rattle.std.specs.Prelude.{◌≡◌, ◌≤◌, ◌<◌};
ghost use Rattle.store.specs.HeaderLayout.{WideHeader};
ghost use Rattle.sound_store.specs.HeaderTests.{passes_from, is_pair_at, has_pairs};

use buffers::is_zero;
use store::{GRANTS, PAIR, PAIRS};

// Whether a pair falls, and its roles are in range.
fn is_pair(header: &[u8], k: usize) -> bool
    requires wide_header { WideHeader header.now }
    requires k_bound { k < 28 }
    ensures { result ≡ is_pair_at header.now k }
{
    let at = PAIRS + 1 + PAIR * k;
    let senior = header[at];
    let junior = header[at + 1];
    senior < junior && junior < 8
}

// Whether there are at most 28 pairs, all in range, and zeros behind them.
pub fn has_pairs(header: &[u8]) -> bool
    requires { WideHeader header.now }
    ensures { result ≡ has_pairs header.now }
{
    let n = header[PAIRS] as usize;
    n <= 28 && (0..n).all(|k| is_pair(header, k)) && is_zero(header, PAIRS + 1 + PAIR * n, GRANTS)
}
