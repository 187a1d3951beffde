// The bytes of one row, field by field. Name, tag path and content are judged by loops without early exit over lengths that the
// compiler knows, which put together by `&` and `|` the tests of each byte with the next: so it can test many bytes at once. Every
// call judges every row, and nearly all are sound.
ghost use Rattle.std.specs.Prelude.{◌≡◌, List, true, ℕ, ◌+◌, ◌-◌, ◌≤◌, ◌<◌, eqb, length};
ghost use Rattle.buffers.specs.Fields.{is_filled};
ghost use Rattle.syntax.specs.Number.{is_mode};
ghost use Rattle.syntax.specs.Path.{is_name};
ghost use Rattle.syntax.specs.Field.{content_byte};
ghost use Rattle.tree.specs.Layout.{name_offset, name_width, content_width};
ghost use Rattle.tree.specs.WellFormed.{fits_kind};
ghost use Rattle.tree.specs.RowAt.{row_bytes_at, row_at};
ghost use Rattle.tree.specs.TreeBytes.{HasRow};
ghost use Rattle.soundness.specs.Sound.{is_row};
ghost use Rattle.soundness.specs.Tests.{is_kind_byte, has_numbers, has_tag, has_content, may_name, may_stand, neighbours_pass, content_stands};

use buffers::is_zero;
use syntax::has_set_gid;
use tree::{
    CONTENT, CONTENT_WIDTH, DIRECTORY, FILE, FIRST, GROUP, KIND, Kind, LAST_REVISION, NAME,
    NAME_WIDTH, OWNER, ROW, TAG, TAG_WIDTH,
};

// The bytes of the second stretch of a content's field, as many as are tested at once; the first stretch is a multiple of it.
const AT_ONCE: usize = 16;

// The numbers of the last account and of the last group.
const LAST_ACCOUNT: u8 = 23;

const LAST_GROUP: u8 = 24;

// Whether a byte says what a node is.
fn is_kind(b: u8) -> bool
    ensures { result ≡ is_kind_byte b }
{
    matches!(b, DIRECTORY | FILE)
}

// Whether a number is a mode.
fn is_mode(mode: u16) -> bool
    ensures { result ≡ is_mode mode }
{
    mode < 512 || has_set_gid(mode)
}

// Whether a kind allows a mode and a content, empty or not: set-gid on directories only, content in files only.
fn fits_kind(kind: Kind, mode: u16, empty: bool) -> bool
    ensures { (t : List ℕ) → empty ≡ eqb (length t) 0 → result ≡ fits_kind kind mode t }
{
    match kind {
        Kind::File => !has_set_gid(mode),
        Kind::Directory => empty,
    }
}

// Whether kind, owner, group, mode and revision are in range.
fn has_numbers(tree: &[u8], i: usize) -> bool
    requires { HasRow tree.now i }
    ensures { result ≡ has_numbers (row_bytes_at tree.now i) }
{
    let at = FIRST + ROW * i;
    is_kind(tree[at + KIND])
        && tree[at + OWNER] <= LAST_ACCOUNT
        && tree[at + GROUP] <= LAST_GROUP
        && is_mode(tree::mode_at(tree, i))
        && tree::revision_at(tree, i) <= LAST_REVISION
}

// Whether zeros fill up a field: behind a zero stands none but a zero.
fn is_filled(s: &[u8], at: usize, width: usize) -> bool
    requires le_width { 1 ≤ width }
    requires width_in_bounds { at + width ≤ length s.now }
    ensures { result ≡ is_filled at width s.now }
{
    let mut all = true;
    for k in 0..width - 1 {
        all &= (s[at + k] != 0) | (s[at + k + 1] == 0);
    }
    all
}

// Whether zeros fill up the name.
fn name_is_filled(tree: &[u8], i: usize) -> bool
    requires { HasRow tree.now i }
    ensures { result ≡ is_filled name_offset name_width (row_bytes_at tree.now i) }
{
    is_filled(tree, FIRST + ROW * i + NAME, NAME_WIDTH)
}

// Whether a byte may stand in a name filled up: one of a name, or a zero.
fn may_name(b: u8) -> bool
    ensures { (next : ℕ) → result ≡ may_name b next }
{
    (b == 0) | (((b'a' <= b) & (b <= b'z')) | (((b'0' <= b) & (b <= b'9')) | (b == b'_')))
}

// Whether a row has a name, where zeros fill it up. All bytes of the field are looked at, so that no end has to be found first.
pub fn has_name(tree: &[u8], i: usize) -> bool
    requires has_row { HasRow tree.now i }
    requires i_value { is_filled name_offset name_width (row_bytes_at tree.now i) ≡ true }
    ensures { result ≡ is_name (row_at tree.now i).name }
{
    let at = FIRST + ROW * i + NAME;
    let mut all = true;
    for n in 0..NAME_WIDTH {
        all &= may_name(tree[at + n]);
    }
    all & (tree[at] != 0)
}

// Whether the tag is zeros, or an entry path filled up and a revision. The field is tested first, whether or not it has a text:
// its length is fixed, that of the zeros behind a path is not.
fn has_tag(tree: &[u8], i: usize) -> bool
    requires { HasRow tree.now i }
    ensures { result ≡ has_tag (row_bytes_at tree.now i) }
{
    let at = FIRST + ROW * i + TAG;
    if !is_filled(tree, at, TAG_WIDTH) {
        return false;
    }
    let revision = tree::tag_revision_at(tree, i);
    if tree[at] == 0 {
        return revision == 0;
    }
    syntax::is_entry_path(tree::tag_path_at(tree, i)) && revision <= LAST_REVISION
}

// Whether a byte may stand before the next in a content filled up: a byte of a content before any, a zero before a zero.
fn may_stand(b: u8, next: u8) -> bool
    ensures { result ≡ may_stand content_byte b next }
{
    ((b == 0) & (next == 0)) | ((b' ' <= b) & (b <= b'~') & (b != b','))
}

// Whether n bytes from a place may each stand before the next.
fn all_stand(s: &[u8], at: usize, n: usize) -> bool
    requires { at + n < length s.now }
    ensures { result ≡ neighbours_pass (may_stand content_byte) at n s.now }
{
    let mut all = true;
    for i in 0..n {
        all &= may_stand(s[at + i], s[at + i + 1]);
    }
    all
}

// Whether a content filled up stands in the field at a place. Its last byte is judged alone, since another field begins behind it;
// the others in two stretches that share a byte, since they are one too few to be tested many at once.
fn content_stands(s: &[u8], at: usize) -> bool
    requires { at + content_width ≤ length s.now }
    ensures { result ≡ content_stands at s.now }
{
    let last = at + CONTENT_WIDTH - 1;
    all_stand(s, at, CONTENT_WIDTH - AT_ONCE)
        && all_stand(s, last - AT_ONCE, AT_ONCE)
        && may_stand(s[last], 0)
}

// Whether the content is one that the kind allows, zeros fill up its field, and the bytes kept for a merge base are zero.
fn has_content(tree: &[u8], i: usize) -> bool
    requires { HasRow tree.now i }
    ensures { result ≡ has_content (row_bytes_at tree.now i) }
{
    let at = FIRST + ROW * i;
    content_stands(tree, at + CONTENT)
        && fits_kind(
            tree::kind_at(tree, i),
            tree::mode_at(tree, i),
            tree[at + CONTENT] == 0,
        )
        && is_zero(tree, at + CONTENT + CONTENT_WIDTH, at + ROW)
}

// Whether the bytes of a row are those of a node in range.
pub fn is_row(tree: &[u8], i: usize) -> bool
    requires { HasRow tree.now i }
    ensures { result ≡ is_row (row_bytes_at tree.now i) }
{
    has_numbers(tree, i) && name_is_filled(tree, i) && has_tag(tree, i) && has_content(tree, i)
}
