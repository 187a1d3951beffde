// Who calls, by the accounts' slots.
ghost use Rattle.std.specs.Prelude.{◌≡◌};
ghost use Rattle.store.specs.Callers.{caller};
ghost use Rattle.header.specs.HeaderBytes.{Headed, Whose, known};

use accounts::{Account, Caller, Gid, Groups, Uid};
use buffers::number;
use store::SLOT;

// The caller of an account number, if the setup knows one: root, or a person, who is in the primary and the further groups.
pub fn caller_of(header: &[u8], uid: Uid) -> Option<Caller>
    requires { Headed header.now }
    ensures { Whose header.now (λ u z. known result ≡ caller u uid) }
{
    if uid.0 == 0 {
        let groups = Groups::empty().with(Gid(0));
        return Some(Caller {
            account: Account { uid, groups },
            primary: Gid(0),
        });
    }
    if 16 <= uid.0 {
        return None;
    }
    let at = SLOT * uid.0 as usize;
    let primary = Gid(header[at]);
    if primary.0 == 0 {
        return None;
    }
    let groups = Groups(number(header, at + 1) as u32).with(primary);
    Some(Caller {
        account: Account { uid, groups },
        primary,
    })
}
