// The accounts' working directories.
ghost use Rattle.std.specs.Prelude.{◌≡◌, ◌<◌};
ghost use Rattle.syntax.specs.Path.{path_text};
ghost use Rattle.store.specs.HeaderLayout.{directory_start};
ghost use Rattle.store.specs.State.{working_directory};
ghost use Rattle.header.specs.HeaderBytes.{Headed, Whose, TellsPath, DirectoryPut};

use accounts::Uid;
use buffers::{text, write_padded};
use store::{DIRECTORIES, DIRECTORY};

// Where the working directory of an account stands.
fn start_of(uid: Uid) -> usize
    requires { uid.0 < 16 }
    ensures { result ≡ directory_start uid.0 }
{
    DIRECTORIES + DIRECTORY * uid.0 as usize
}

// The working directory of an account, as text.
pub fn directory_of(header: &[u8], uid: Uid) -> &[u8]
    requires headed { Headed header.now }
    requires uid_bound { uid.0 < 16 }
    ensures { Whose header.now (λ u z. result.now ≡ path_text (working_directory uid z)) }
{
    let at = start_of(uid);
    text(header, at, DIRECTORY)
}

// Replaces the working directory of an account by a path, given as text.
pub fn set_directory(header: &mut [u8], uid: Uid, path: &[u8])
    requires headed { Headed header.old }
    requires uid_bound { uid.0 < 16 }
    requires tells_path { TellsPath path.now }
    ensures { DirectoryPut header.old uid path.now header.new }
{
    let at = start_of(uid);
    write_padded(header, at, DIRECTORY, path);
}
