// The layout of a tree's bytes: the number of rows, then room for 256 rows. What stands in a row, and where:
//
// | field | offset | bytes |
// |---|---|---|
// | depth, kind, owner, group | 0, 1, 2, 3 | 1 each |
// | mode, revision | 4, 6 | 2 each |
// | name | 8 | 8 |
// | tag: path, revision | 16, 65 | 49, 2 |
// | content | 67 | 80 |
// | kept for a merge base | 147 | 80 |
//
// The specification's offsets are in specs/Layout.antt; a proof fails where the two differ.
use syntax::CONTENT_LIMIT;

// Where the first row begins, behind the number of rows.
pub const FIRST: usize = 2;

// The bytes of a row.
pub const ROW: usize = 227;

// How many rows there is room for.
pub const MOST_ROWS: usize = 256;

// All bytes of a tree.
pub const TREE: usize = FIRST + ROW * MOST_ROWS;

// Arrays that hold rows on the way have room for so many, or for all of a tree. There are several because to clear one that is much
// larger than the rows takes longer than to move or to copy them.
pub const FEW_ROWS: usize = 4;

pub const SOME_ROWS: usize = 16;

pub const MANY_ROWS: usize = 64;

pub const HALF_ROWS: usize = 128;

// The fields of a row by their offsets, but for the depth, which stands first.
pub const KIND: usize = 1;

pub const OWNER: usize = 2;

pub const GROUP: usize = 3;

pub const MODE: usize = 4;

pub const REVISION: usize = 6;

pub const NAME: usize = 8;

pub const TAG: usize = 16;

pub const TAG_REVISION: usize = 65;

pub const CONTENT: usize = 67;

// The bytes of a row behind its name.
pub const BEHIND_NAME: usize = ROW - TAG;

// The widths of its texts.
pub const NAME_WIDTH: usize = 8;

pub const TAG_WIDTH: usize = 49;

pub const CONTENT_WIDTH: usize = CONTENT_LIMIT;

// The letters of the kinds.
pub const FILE: u8 = b'f';

pub const DIRECTORY: u8 = b'd';

// No revision is past this.
pub const LAST_REVISION: u16 = 9999;
