// Rows put in and taken out.
ghost use Rattle.std.specs.Prelude.{◌≡◌, ◌+◌, ◌*◌, ◌≤◌, length};
ghost use Rattle.std.proofs.Math.Seq.{paste};
ghost use Rattle.tree.specs.Layout.{row_width, name_width};
ghost use Rattle.tree.specs.Forest.{leaf};
ghost use Rattle.tree.specs.Encoding.{kind_byte, row_bytes, encode_tree};
ghost use Rattle.tree.specs.TreeBytes.{Wide, Insertable, Stretch};
ghost use Rattle.edits.specs.Changes.{rows_put, rows_taken, fresh_node, fresh_row, head_bytes};

use crate::Fresh;
use buffers::{clear, move_bytes, write, write_number, write_padded};
use tree::{
    BEHIND_NAME, DIRECTORY, FILE, FIRST, Kind, MODE, NAME, NAME_WIDTH, REVISION, ROW, TAG, TREE,
    count,
};

// Puts n rows in before the one at an index; those from there on move up.
pub fn put_rows(tree: &mut [u8], at: usize, n: usize, rows: &[u8])
    requires insertable { Insertable tree.old at n }
    requires n_in_bounds { row_width * n ≤ length rows.now }
    ensures { tree.new ≡ rows_put tree.old at n rows.now }
{
    let c = count(tree);
    let start = FIRST + ROW * at;
    move_bytes(tree, start, start + ROW * n, ROW * (c - at));
    write(tree, start, &rows[..ROW * n]);
    write_number(tree, 0, (c + n) as u16);
}

// Takes n rows out from an index on; those behind move down, and zeros stand where the last n were.
pub fn take_rows(tree: &mut [u8], at: usize, n: usize)
    requires { Stretch tree.old at n }
    ensures { tree.new ≡ rows_taken tree.old at n }
{
    let c = count(tree);
    let start = FIRST + ROW * at;
    move_bytes(tree, start + ROW * n, start, ROW * (c - (at + n)));
    clear(tree, FIRST + ROW * (c - n), ROW * n);
    write_number(tree, 0, (c - n) as u16);
}

// The letter of a kind.
fn kind_byte(kind: Kind) -> u8
    ensures { result ≡ kind_byte kind }
{
    match kind {
        Kind::File => FILE,
        Kind::Directory => DIRECTORY,
    }
}

// Writes the fields of a row before its name.
pub fn write_head(tree: &mut [u8], at: usize, depth: u8, node: Fresh)
    requires { at + 8 ≤ length tree.old }
    ensures { tree.new ≡ paste tree.old at (head_bytes depth node) 8 }
{
    let kind = node.kind;
    let owner = node.owner;
    let group = node.group;
    let letter = kind_byte(kind);
    write(tree, at, &[depth, letter, owner.0, group.0]);
    write_number(tree, at + MODE, node.mode);
    write_number(tree, at + REVISION, node.revision);
}

// Writes the row of a new node.
fn write_row(tree: &mut [u8], at: usize, depth: u8, name: &[u8], node: Fresh)
    requires row_width_in_bounds { at + row_width ≤ length tree.old }
    requires name_len_bound { length name.now ≤ name_width }
    ensures { tree.new ≡ paste tree.old at (row_bytes (fresh_row depth name.now node)) row_width }
{
    write_head(tree, at, depth, node);
    write_padded(tree, at + NAME, NAME_WIDTH, name);
    clear(tree, at + TAG, BEHIND_NAME);
}

// Puts the row of a new node in before the one at an index.
pub fn put_child(tree: &mut [u8], at: usize, depth: u8, name: &[u8], node: Fresh)
    requires insertable { Insertable tree.old at 1 }
    requires name_len_bound { length name.now ≤ name_width }
    ensures { tree.new ≡ rows_put tree.old at 1 (row_bytes (fresh_row depth name.now node)) }
{
    let c = count(tree);
    let start = FIRST + ROW * at;
    move_bytes(tree, start, start + ROW, ROW * (c - at));
    write_row(tree, start, depth, name, node);
    write_number(tree, 0, (c + 1) as u16);
}

// Makes a tree of `/` alone, whatever stood there.
pub fn plant(tree: &mut [u8], top: Fresh)
    requires { Wide tree.old }
    ensures { tree.new ≡ encode_tree (leaf (fresh_node top)) }
{
    clear(tree, 0, TREE);
    write_number(tree, 0, 1);
    write_row(tree, FIRST, 0, b"", top);
}
