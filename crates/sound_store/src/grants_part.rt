// The header's login grants.
ghost use Rattle.std.specs.Prelude.{◌≡◌, ◌≤◌, ◌<◌};
ghost use Rattle.store.specs.HeaderLayout.{WideHeader};
ghost use Rattle.sound_store.specs.HeaderTests.{passes_from, is_grant_at, is_password_at, has_grants};

use crate::accounts_part::is_named;
use crate::padded::holds_padded;
use buffers::is_zero;
use store::{DIRECTORIES, GRANT, GRANTS, PASSWORD, PASSWORD_WIDTH};

// The number of the last role.
const LAST_ROLE: u8 = 7;

// Whether a grant's password is a name, filled up with zeros.
fn is_password(header: &[u8], k: usize) -> bool
    requires wide_header { WideHeader header.now }
    requires k_bound { k < 32 }
    ensures { result ≡ is_password_at header.now k }
{
    let at = GRANTS + 1 + GRANT * k + PASSWORD;
    holds_padded(header, at, PASSWORD_WIDTH, |text| syntax::is_name(text))
}

// Whether a grant is root's or a person's, its role in range, and its password a name.
fn is_grant(header: &[u8], k: usize) -> bool
    requires wide_header { WideHeader header.now }
    requires k_bound { k < 32 }
    ensures { result ≡ is_grant_at header.now k }
{
    let at = GRANTS + 1 + GRANT * k;
    is_named(header, header[at]) && header[at + 1] <= LAST_ROLE && is_password(header, k)
}

// Whether there are at most 32 grants, all in range, and zeros behind them.
pub fn has_grants(header: &[u8]) -> bool
    requires { WideHeader header.now }
    ensures { result ≡ has_grants header.now }
{
    let n = header[GRANTS] as usize;
    n <= 32
        && (0..n).all(|k| is_grant(header, k))
        && is_zero(header, GRANTS + 1 + GRANT * n, DIRECTORIES)
}
