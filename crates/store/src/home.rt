// The path of an account's home.
ghost use Rattle.std.specs.Prelude.{◌≡◌, ◌∷◌, ◌≤◌, ◌<◌, length};
ghost use Rattle.store.specs.Initial.{home_name};

use accounts::Uid;

// The path of an account's home, `/u` and its number, written in front of a buffer.
pub fn home_path(uid: Uid, path: &mut [u8; 4]) -> &[u8]
    requires { uid.0 < 16 }
    ensures path { result.now ≡ 47 ∷ home_name uid }
    ensures fits { length result.now ≤ 4 }
{
    if uid.0 < 10 {
        *path = [b'/', b'u', b'0' + uid.0, 0];
        return &path[..3];
    }
    *path = [b'/', b'u', b'1', b'0' + (uid.0 - 10)];
    path
}
