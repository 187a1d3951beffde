// Whether a lent buffer holds a sound store: a header, and behind it a tree.
#![tactic(auto)]

ghost use Rattle.std.specs.Prelude.{◌≡◌};
ghost use Rattle.syntax.specs.Form.{is_some};
ghost use Rattle.store.specs.HeaderLayout.{WideHeader};
ghost use Rattle.store.specs.StoreBytes.{is_header, decode};

mod accounts_part;
mod directories_part;
mod grants_part;
mod padded;
mod pairs_part;

use accounts_part::{has_sessions, has_slots};
use directories_part::has_directories;
use grants_part::has_grants;
use pairs_part::has_pairs;
use soundness::{holds_tree, is_zero_in_blocks};
use store::{HEADER, SPARE, STORE};

// Whether a header's bytes are those of a setup in range, of sessions and working directories.
pub fn holds_header(header: &[u8]) -> bool
    requires { WideHeader header.now }
    ensures { result ≡ is_header header.now }
{
    has_slots(header)
        && has_sessions(header)
        && has_pairs(header)
        && has_grants(header)
        && has_directories(header)
        && is_zero_in_blocks(header, SPARE, HEADER)
}

// Whether a buffer of any length holds a sound store.
pub fn holds_store(store: &[u8]) -> bool
    ensures { result ≡ is_some (decode store.now) }
{
    store.len() == STORE && holds_header(&store[..HEADER]) && holds_tree(&store[HEADER..])
}
