// The header's working directories, one for every account.
ghost use Rattle.std.specs.Prelude.{◌≡◌, ◌<◌};
ghost use Rattle.store.specs.HeaderLayout.{WideHeader};
ghost use Rattle.sound_store.specs.HeaderTests.{is_directory_at, has_directories};

use crate::padded::holds_padded;
use buffers::is_zero;
use store::{DIRECTORIES, DIRECTORY};

// Whether an account's working directory is a path, filled up with zeros. `/`, which accounts that are no person's have, is seen without
// its text.
fn is_directory(header: &[u8], k: usize) -> bool
    requires wide_header { WideHeader header.now }
    requires k_bound { k < 16 }
    ensures { result ≡ is_directory_at header.now k }
{
    let at = DIRECTORIES + DIRECTORY * k;
    if header[at] != b'/' {
        return false;
    }
    if header[at + 1] == 0 {
        return is_zero(header, at + 1, at + DIRECTORY);
    }
    holds_padded(header, at, DIRECTORY, |text| syntax::is_path(text))
}

// Whether every account's is.
pub fn has_directories(header: &[u8]) -> bool
    requires { WideHeader header.now }
    ensures { result ≡ has_directories header.now }
{
    (0..16).all(|k| is_directory(header, k))
}
