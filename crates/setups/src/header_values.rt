// One value of a header written: a slot, a pair, a grant.
ghost use Rattle.std.specs.Prelude.{◌≡◌, true, [], ◌∷◌, ◌+◌, ◌≤◌, length};
ghost use Rattle.std.proofs.Math.Seq.{paste};
ghost use Rattle.setup.specs.Setup.{is_slot};
ghost use Rattle.store.specs.HeaderLayout.{slot_width, pair_width, grant_width, password_width};
ghost use Rattle.accounts.specs.PairBytes.{pair_bytes};
ghost use Rattle.store.specs.InitialRows.{slot_value};
ghost use Rattle.store.specs.StoreBytes.{slot_bytes, grant_bytes};

use accounts::{Pair, Role, Uid};
use buffers::{clear, write_number, write_padded};
use store::{PASSWORD, PASSWORD_WIDTH, Person, SLOT};

// Writes the slot of an account: a person's groups, or zeros.
pub fn write_slot(header: &mut [u8], at: usize, person: Person)
    requires slot_width_in_bounds { at + slot_width ≤ length header.old }
    requires person_value { is_slot (slot_value person) ≡ true }
    ensures { header.new ≡ paste header.old at (slot_bytes (slot_value person)) slot_width }
{
    let primary = person.primary;
    let further = person.further;
    if primary.0 == 0 {
        clear(header, at, SLOT);
        return;
    }
    header[at] = primary.0;
    write_number(header, at + 1, further.0 as u16);
}

// Writes two bytes.
fn write_two(header: &mut [u8], at: usize, v: u8, w: u8)
    requires { at + 2 ≤ length header.old }
    ensures { header.new ≡ paste header.old at (v ∷ (w ∷ [])) 2 }
{
    header[at] = v;
    header[at + 1] = w;
}

// Writes a pair: senior, junior.
pub fn write_pair(header: &mut [u8], at: usize, pair: Pair)
    requires { at + pair_width ≤ length header.old }
    ensures { header.new ≡ paste header.old at (pair_bytes pair) pair_width }
{
    let senior = pair.senior;
    let junior = pair.junior;
    write_two(header, at, senior.0, junior.0);
}

// Writes a grant: uid, role, and the password filled up with zeros.
pub fn write_grant(header: &mut [u8], at: usize, uid: Uid, role: Role, password: &[u8])
    requires grant_width_in_bounds { at + grant_width ≤ length header.old }
    requires password_len_bound { length password.now ≤ password_width }
    ensures { header.new ≡ paste header.old at (grant_bytes (record { uid = uid; role = role; password = password.now })) grant_width }
{
    write_two(header, at, uid.0, role.0);
    write_padded(header, at + PASSWORD, PASSWORD_WIDTH, password);
}
