// The fields of a line behind its path, each behind a comma; every function writes from a place on and tells where it ends.
ghost use Rattle.std.specs.Prelude.{◌∷◌, ◌+◌, ◌≤◌, length};
ghost use Rattle.buffers.specs.Over.{Wrote};
ghost use Rattle.syntax.specs.Pieces.{comma};
ghost use Rattle.syntax.specs.Number.{decimal_text, mode_text};
ghost use Rattle.tree.specs.RowAt.{row_at};
ghost use Rattle.tree.specs.TreeBytes.{HasRow};
ghost use Rattle.listing.specs.Listing.{kind_text};
ghost use Rattle.listing.specs.RowListing.{WroteMost, or_dash, owner_fields, number_fields, tag_fields_at, fields_at};

use buffers::write;
use syntax::{write_decimal, write_mode};
use tree::{
    Kind, content_at, group_at, kind_at, mode_at, owner_at, revision_at, tag_path_at,
    tag_revision_at,
};

// Writes a text behind a byte.
pub fn write_behind(answer: &mut [u8], at: usize, mark: u8, text: &[u8]) -> usize
    requires { at + 1 + length text.now ≤ length answer.old }
    ensures { Wrote (mark ∷ text.now) answer.old at answer.new result }
{
    answer[at] = mark;
    write(answer, at + 1, text);
    at + 1 + text.len()
}

// Writes a decimal number behind a comma.
fn write_decimal_field(answer: &mut [u8], at: usize, n: u16) -> usize
    requires { at + 6 ≤ length answer.old }
    ensures { WroteMost 6 (comma ∷ decimal_text n) answer.old at answer.new result }
{
    answer[at] = b',';
    write_decimal(answer, at + 1, n as usize)
}

// Writes a mode behind a comma.
fn write_mode_field(answer: &mut [u8], at: usize, mode: u16) -> usize
    requires { at + 5 ≤ length answer.old }
    ensures { WroteMost 5 (comma ∷ mode_text mode) answer.old at answer.new result }
{
    answer[at] = b',';
    write_mode(answer, at + 1, mode)
}

// Writes `d` or `f`.
fn write_kind(tree: &[u8], i: usize, answer: &mut [u8], at: usize) -> usize
    requires has_row { HasRow tree.now i }
    requires at_in_bounds { at + 2 ≤ length answer.old }
    ensures { WroteMost 2 (comma ∷ kind_text (row_at tree.now i).here.kind) answer.old at answer.new result }
{
    match kind_at(tree, i) {
        Kind::File => write_behind(answer, at, b',', b"f"),
        Kind::Directory => write_behind(answer, at, b',', b"d"),
    }
}

// Writes the owner and the group.
fn write_owners(tree: &[u8], i: usize, answer: &mut [u8], at: usize) -> usize
    requires has_row { HasRow tree.now i }
    requires at_in_bounds { at + 12 ≤ length answer.old }
    ensures { WroteMost 12 (owner_fields tree.now i) answer.old at answer.new result }
{
    let owner = owner_at(tree, i).0 as u16;
    let group = group_at(tree, i).0 as u16;
    let end = write_decimal_field(answer, at, owner);
    write_decimal_field(answer, end, group)
}

// Writes the mode and the revision.
fn write_numbers(tree: &[u8], i: usize, answer: &mut [u8], at: usize) -> usize
    requires has_row { HasRow tree.now i }
    requires at_in_bounds { at + 11 ≤ length answer.old }
    ensures { WroteMost 11 (number_fields tree.now i) answer.old at answer.new result }
{
    let end = write_mode_field(answer, at, mode_at(tree, i));
    write_decimal_field(answer, end, revision_at(tree, i))
}

// Writes the path of a tag, or `-` where its text is empty.
fn write_tag_path(answer: &mut [u8], at: usize, path: &[u8]) -> usize
    requires path_len_bound { length path.now ≤ 54 }
    requires at_in_bounds { at + 55 ≤ length answer.old }
    ensures { WroteMost 55 (comma ∷ or_dash path.now) answer.old at answer.new result }
{
    if path.is_empty() {
        return write_behind(answer, at, b',', b"-");
    }
    write_behind(answer, at, b',', path)
}

// Writes the path and the revision of the tag.
fn write_tag(tree: &[u8], i: usize, answer: &mut [u8], at: usize) -> usize
    requires has_row { HasRow tree.now i }
    requires at_in_bounds { at + 61 ≤ length answer.old }
    ensures { WroteMost 61 (tag_fields_at tree.now i) answer.old at answer.new result }
{
    let end = write_tag_path(answer, at, tag_path_at(tree, i));
    write_decimal_field(answer, end, tag_revision_at(tree, i))
}

// Writes all fields behind the path.
pub fn write_fields(tree: &[u8], i: usize, answer: &mut [u8], at: usize) -> usize
    requires has_row { HasRow tree.now i }
    requires at_in_bounds { at + 167 ≤ length answer.old }
    ensures { WroteMost 167 (fields_at tree.now i) answer.old at answer.new result }
{
    let kind = write_kind(tree, i, answer, at);
    let owners = write_owners(tree, i, answer, kind);
    let numbers = write_numbers(tree, i, answer, owners);
    let tag = write_tag(tree, i, answer, numbers);
    write_behind(answer, tag, b',', content_at(tree, i))
}
