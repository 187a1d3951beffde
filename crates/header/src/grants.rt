// Whether a login is granted.
ghost use Rattle.std.specs.Prelude.{◌≡◌, ◌<◌};
ghost use Rattle.store.specs.HeaderLayout.{WideHeader};
ghost use Rattle.header.specs.HeaderBytes.{Headed, grant_in, grant_has, GrantTold};

use accounts::{Role, Uid};
use buffers::{same, text};
use store::{GRANT, GRANTS, PASSWORD, PASSWORD_WIDTH};

// The password of the grant at an index, without the zeros that fill it up.
fn password_at(header: &[u8], i: usize) -> &[u8]
    requires wide_header { WideHeader header.now }
    requires i_bound { i < 32 }
    ensures { result.now ≡ (grant_in header.now i).password }
{
    let at = GRANTS + 1 + GRANT * i + PASSWORD;
    text(header, at, PASSWORD_WIDTH)
}

// Whether the grant at an index has just these three; the numbers are compared first.
fn grant_has(header: &[u8], i: usize, uid: Uid, role: Role, password: &[u8]) -> bool
    requires wide_header { WideHeader header.now }
    requires i_bound { i < 32 }
    ensures { result ≡ grant_has (grant_in header.now i) uid role password.now }
{
    let at = GRANTS + 1 + GRANT * i;
    header[at] == uid.0 && header[at + 1] == role.0 && same(password_at(header, i), password)
}

// Whether a grant of the setup has just these three.
pub fn is_granted(header: &[u8], uid: Uid, role: Role, password: &[u8]) -> bool
    requires headed { Headed header.now }
    requires role_bound { role.0 < 8 }
    ensures { GrantTold header.now uid role password.now result }
{
    let n = header[GRANTS] as usize;
    for i in 0..n {
        if grant_has(header, i, uid, role, password) {
            return true;
        }
    }
    false
}
