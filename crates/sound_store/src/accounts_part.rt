// The header's slots and sessions, one of each for every account.
ghost use Rattle.std.specs.Prelude.{◌≡◌, ◌<◌};
ghost use Rattle.store.specs.HeaderLayout.{WideHeader};
ghost use Rattle.sound_store.specs.HeaderTests.{is_slot_at, has_slots, has_sessions, named_at};

use buffers::is_zero;
use store::{SESSIONS, SLOT};

// The greatest byte of a session: that of the last role.
const MOST_SESSION: u8 = 8;

// Whether a slot is zeros, or a person's groups in range.
fn is_slot(header: &[u8], k: usize) -> bool
    requires wide_header { WideHeader header.now }
    requires k_bound { k < 16 }
    ensures { result ≡ is_slot_at header.now k }
{
    let at = SLOT * k;
    let primary = header[at];
    if primary == 0 {
        return is_zero(header, at + 1, at + SLOT);
    }
    primary <= 15 && header[at + 1] % 2 == 0
}

// Whether account 0 is no person's, and every slot is in range.
pub fn has_slots(header: &[u8]) -> bool
    requires { WideHeader header.now }
    ensures { result ≡ has_slots header.now }
{
    header[0] == 0 && (0..16).all(|k| is_slot(header, k))
}

// Whether every session is of a role or none.
pub fn has_sessions(header: &[u8]) -> bool
    requires { WideHeader header.now }
    ensures { result ≡ has_sessions header.now }
{
    (0..16).all(|k| header[SESSIONS + k] <= MOST_SESSION)
}

// Whether a number is root's or a person's.
pub fn is_named(header: &[u8], uid: u8) -> bool
    requires { WideHeader header.now }
    ensures { result ≡ named_at header.now uid }
{
    uid == 0 || (uid <= 15 && header[SLOT * uid as usize] != 0)
}
