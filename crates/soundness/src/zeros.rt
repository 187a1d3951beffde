// Long stretches of zeros.
ghost use Rattle.std.specs.Prelude.{◌≡◌, ◌-◌, ◌≤◌, length};
ghost use Rattle.buffers.specs.Fields.{zeros_at};

use buffers::is_zero;

// How many bytes are tested at once.
const BLOCK: usize = 256;

// Whether the bytes of a long stretch are all 0: as `is_zero` says, in blocks of a fixed length, which are tested faster. They are
// taken from the end on: a tree ends where its store does, at a multiple of a block, so that no word of a block lies across two
// lines of the cache.
pub fn is_zero_in_blocks(s: &[u8], from: usize, to: usize) -> bool
    requires from_le_to { from ≤ to }
    requires to_in_bounds { to ≤ length s.now }
    ensures { result ≡ zeros_at from (to - from) s.now }
{
    let mut end = to;
    while BLOCK <= end - from {
        end -= BLOCK;
        if !is_zero(s, end, end + BLOCK) {
            return false;
        }
    }
    is_zero(s, from, end)
}
