// The fields of a row written, a function each, so that callers name a field and no offset.
ghost use Rattle.std.specs.Prelude.{◌≡◌, [], ◌∷◌, ◌+◌, ◌≤◌, ◌<◌, length};
ghost use Rattle.buffers.specs.Fields.{two_bytes, padded};
ghost use Rattle.tree.specs.Layout.{row_width, owner_offset, group_offset, mode_offset, revision_offset, tag_offset, tag_width, tag_revision_offset, content_offset, content_width};
ghost use Rattle.tree.specs.RowAt.{tag_text_at};
ghost use Rattle.tree.specs.TreeBytes.{HasRow};
ghost use Rattle.edits.specs.Changes.{field_bytes, field_put, content_field, tag_field, tag_below};
ghost use Rattle.node_fields.specs.NodeCopy.{node_copied};

use accounts::{Gid, Uid};
use buffers::{clear, move_bytes, write, write_number, write_padded};
use tree::{
    BEHIND_NAME, CONTENT, CONTENT_WIDTH, FIRST, GROUP, KIND, MODE, NAME, OWNER, REVISION, ROW, TAG,
    TAG_REVISION, TAG_WIDTH, tag_path_at,
};

pub fn set_owner(tree: &mut [u8], i: usize, owner: Uid)
    requires { HasRow tree.old i }
    ensures { tree.new ≡ field_put tree.old i owner_offset (owner.0 ∷ []) }
{
    tree[FIRST + ROW * i + OWNER] = owner.0;
}

pub fn set_group(tree: &mut [u8], i: usize, group: Gid)
    requires { HasRow tree.old i }
    ensures { tree.new ≡ field_put tree.old i group_offset (group.0 ∷ []) }
{
    tree[FIRST + ROW * i + GROUP] = group.0;
}

pub fn set_mode(tree: &mut [u8], i: usize, mode: u16)
    requires { HasRow tree.old i }
    ensures { tree.new ≡ field_put tree.old i mode_offset (two_bytes mode) }
{
    write_number(tree, FIRST + ROW * i + MODE, mode);
}

pub fn set_revision(tree: &mut [u8], i: usize, revision: u16)
    requires { HasRow tree.old i }
    ensures { tree.new ≡ field_put tree.old i revision_offset (two_bytes revision) }
{
    write_number(tree, FIRST + ROW * i + REVISION, revision);
}

// The tag: its path as text, and its revision.
pub fn set_tag(tree: &mut [u8], i: usize, path: &[u8], revision: u16)
    requires has_row { HasRow tree.old i }
    requires path_len_bound { length path.now ≤ tag_width }
    ensures { tree.new ≡ field_put tree.old i tag_offset (tag_field path.now revision) }
{
    let at = FIRST + ROW * i;
    write_padded(tree, at + TAG, TAG_WIDTH, path);
    write_number(tree, at + TAG_REVISION, revision);
}

// Where the name of a child begins in its tag, if nothing stands before the slash.
const BEHIND_SLASH: usize = 17;

// The tag of a child: the path of the tag at a row before, a slash and a name. The whole field is cleared first: a fixed width is faster
// than what the name leaves of it.
pub fn set_tag_below(tree: &mut [u8], i: usize, above: usize, name: &[u8], revision: u16)
    requires has_row { HasRow tree.old i }
    requires above_lt_i { above < i }
    requires name_len_bound { length (tag_text_at tree.old above) + length name.now < tag_width }
    ensures { tree.new ≡ field_put tree.old i tag_offset (tag_below tree.old above name.now revision) }
{
    let at = FIRST + ROW * i;
    let n = tag_path_at(tree, above).len();
    clear(tree, at + TAG, TAG_WIDTH);
    move_bytes(tree, FIRST + ROW * above + TAG, at + TAG, n);
    tree[at + TAG + n] = b'/';
    write(tree, at + BEHIND_SLASH + n, name);
    write_number(tree, at + TAG_REVISION, revision);
}

pub fn set_tag_revision(tree: &mut [u8], i: usize, revision: u16)
    requires { HasRow tree.old i }
    ensures { tree.new ≡ field_put tree.old i tag_revision_offset (two_bytes revision) }
{
    write_number(tree, FIRST + ROW * i + TAG_REVISION, revision);
}

pub fn set_content(tree: &mut [u8], i: usize, content: &[u8])
    requires has_row { HasRow tree.old i }
    requires content_len_bound { length content.now ≤ content_width }
    ensures { tree.new ≡ field_put tree.old i content_offset (padded content_width content.now) }
{
    write_padded(tree, FIRST + ROW * i + CONTENT, CONTENT_WIDTH, content);
}

// A part of one row, n bytes from an offset on, to another.
fn copy_part(tree: &mut [u8], from: usize, to: usize, at: usize, n: usize)
    requires has_row { HasRow tree.old from }
    requires has_row_2 { HasRow tree.old to }
    requires n_bound { at + n ≤ row_width }
    ensures { tree.new ≡ field_put tree.old to at (field_bytes tree.old from at n) }
{
    let source = FIRST + ROW * from + at;
    let target = FIRST + ROW * to + at;
    move_bytes(tree, source, target, n);
}

// The content of one row to another.
pub fn copy_content(tree: &mut [u8], from: usize, to: usize)
    requires has_row { HasRow tree.old from }
    requires has_row_2 { HasRow tree.old to }
    ensures { tree.new ≡ field_put tree.old to content_offset (content_field tree.old from) }
{
    copy_part(tree, from, to, CONTENT, CONTENT_WIDTH);
}

// The bytes of a row between its depth and its name: kind, owner, group, mode and revision.
const ATTRIBUTES: usize = NAME - KIND;

// All of one row but its depth and its name to another.
pub fn copy_node(tree: &mut [u8], from: usize, to: usize)
    requires has_row { HasRow tree.old from }
    requires has_row_2 { HasRow tree.old to }
    ensures { tree.new ≡ node_copied tree.old from to }
{
    copy_part(tree, from, to, KIND, ATTRIBUTES);
    copy_part(tree, from, to, TAG, BEHIND_NAME);
}
