// Dominance closed from role pairs: from a slice of them, and from the bytes that say them. Each pair in turn grows the
// rows (`Dominance::with`), and `grown_rows_are` of `accounts` says that this is dominance by one pair more.
#![tactic(auto)]

ghost use Rattle.std.specs.Prelude.{◌≡◌, true, ◌++◌, ◌≤◌, ◌*◌, ◌-◌, length, replicate};
ghost use Rattle.accounts.specs.Dominance.{all_fall};
ghost use Rattle.accounts.specs.Closure.{rows_of};
ghost use Rattle.accounts.specs.PairBytes.{no_pair};
ghost use Rattle.dominance.specs.PairsIn.{pairs_in};

use accounts::{Dominance, Pair, Role};

// Dominance closed pair by pair, where every senior is less than its junior.
pub fn closed(pairs: &[Pair]) -> Dominance
    requires { all_fall pairs.now ≡ true }
    ensures { result.rows ≡ rows_of pairs.now }
{
    let mut dominance = Dominance::own();
    for pair in pairs {
        dominance = dominance.with(*pair);
    }
    dominance
}

// The first n pairs that bytes say, and 0 over 0 in place of the others up to 28.
fn pairs_in(bytes: &[u8], n: usize) -> [Pair; 28]
    requires n_bound { n ≤ 28 }
    requires n_in_bounds { 2 * n ≤ length bytes.now }
    ensures { result ≡ pairs_in n bytes.now ++ replicate (28 - n) no_pair }
{
    let mut all = [Pair {
        senior: Role(0),
        junior: Role(0),
    }; 28];
    for k in 0..n {
        all[k] = Pair {
            senior: Role(bytes[2 * k]),
            junior: Role(bytes[2 * k + 1]),
        };
    }
    all
}

// Dominance closed from the first n pairs that bytes say: the header holds the setup's pairs as bytes.
pub fn closed_bytes(bytes: &[u8], n: usize) -> Dominance
    requires n_bound { n ≤ 28 }
    requires n_in_bounds { 2 * n ≤ length bytes.now }
    requires bytes_value { all_fall (pairs_in n bytes.now) ≡ true }
    ensures { result.rows ≡ rows_of (pairs_in n bytes.now) }
{
    let all = pairs_in(bytes, n);
    closed(&all[..n])
}
