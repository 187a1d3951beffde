// The fields of a row.
ghost use Rattle.std.specs.Prelude.{◌≡◌, ◌+◌, ◌*◌};
ghost use Rattle.tree.specs.RowAt.{row_count, row_at, tag_text_at, tag_number_at};
ghost use Rattle.tree.specs.TreeBytes.{Wide, HasRow};

use crate::Kind;
use crate::layout::{
    CONTENT, CONTENT_WIDTH, DIRECTORY, FIRST, GROUP, KIND, MODE, NAME, NAME_WIDTH, OWNER, REVISION,
    ROW, TAG, TAG_REVISION, TAG_WIDTH,
};
use accounts::{Gid, Uid};
use buffers::{number, text};

// How many rows there are.
pub fn count(tree: &[u8]) -> usize
    requires { Wide tree.now }
    ensures { result ≡ row_count tree.now }
{
    number(tree, 0) as usize
}

pub fn depth_at(tree: &[u8], i: usize) -> u8
    requires { HasRow tree.now i }
    ensures { result ≡ (row_at tree.now i).depth }
{
    tree[FIRST + ROW * i]
}

pub fn kind_at(tree: &[u8], i: usize) -> Kind
    requires { HasRow tree.now i }
    ensures { result ≡ (row_at tree.now i).here.kind }
{
    if tree[FIRST + ROW * i + KIND] == DIRECTORY {
        return Kind::Directory;
    }
    Kind::File
}

pub fn owner_at(tree: &[u8], i: usize) -> Uid
    requires { HasRow tree.now i }
    ensures { result ≡ (row_at tree.now i).here.owner }
{
    Uid(tree[FIRST + ROW * i + OWNER])
}

pub fn group_at(tree: &[u8], i: usize) -> Gid
    requires { HasRow tree.now i }
    ensures { result ≡ (row_at tree.now i).here.group }
{
    Gid(tree[FIRST + ROW * i + GROUP])
}

pub fn mode_at(tree: &[u8], i: usize) -> u16
    requires { HasRow tree.now i }
    ensures { result ≡ (row_at tree.now i).here.mode }
{
    number(tree, FIRST + ROW * i + MODE)
}

pub fn revision_at(tree: &[u8], i: usize) -> u16
    requires { HasRow tree.now i }
    ensures { result ≡ (row_at tree.now i).here.revision }
{
    number(tree, FIRST + ROW * i + REVISION)
}

// The name; none for `/`.
pub fn name_at(tree: &[u8], i: usize) -> &[u8]
    requires { HasRow tree.now i }
    ensures { result.now ≡ (row_at tree.now i).name }
{
    text(tree, FIRST + ROW * i + NAME, NAME_WIDTH)
}

// The path of the tag as text; none where there is no tag.
pub fn tag_path_at(tree: &[u8], i: usize) -> &[u8]
    requires { HasRow tree.now i }
    ensures { result.now ≡ tag_text_at tree.now i }
{
    text(tree, FIRST + ROW * i + TAG, TAG_WIDTH)
}

pub fn tag_revision_at(tree: &[u8], i: usize) -> u16
    requires { HasRow tree.now i }
    ensures { result ≡ tag_number_at tree.now i }
{
    number(tree, FIRST + ROW * i + TAG_REVISION)
}

pub fn content_at(tree: &[u8], i: usize) -> &[u8]
    requires { HasRow tree.now i }
    ensures { result.now ≡ (row_at tree.now i).here.content }
{
    text(tree, FIRST + ROW * i + CONTENT, CONTENT_WIDTH)
}
