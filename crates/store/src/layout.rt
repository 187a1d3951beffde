// The layout of a store's bytes: the header, then the tree. What stands in the header, and where:
//
// | part | offset | bytes |
// |---|---|---|
// | accounts 0 to 15: primary group, further groups | 0 | 16 of 1 + 2 |
// | sessions of accounts 0 to 15: role + 1, or 0 | 48 | 16 of 1 |
// | role pairs: how many, then senior, junior | 64 | 1 + 28 of 1 + 1 |
// | grants: how many, then uid, role, password | 121 | 1 + 32 of 1 + 1 + 8 |
// | working directories of accounts 0 to 15 | 442 | 16 of 54 |
// | zero | 1306 | 6116 |
//
// The specification's offsets are in specs/HeaderLayout.antt; a proof fails where the two differ.

// All bytes of a store.
pub const STORE: usize = 65536;

// Those of the header; the tree begins behind them.
pub const HEADER: usize = 7422;

// The bytes of an account's slot.
pub const SLOT: usize = 3;

pub const SESSIONS: usize = 48;

pub const PAIRS: usize = 64;

// The bytes of a role pair.
pub const PAIR: usize = 2;

pub const GRANTS: usize = 121;

// The bytes of a grant, and where in it the password stands.
pub const GRANT: usize = 10;

pub const PASSWORD: usize = 2;

pub const PASSWORD_WIDTH: usize = 8;

pub const DIRECTORIES: usize = 442;

// The bytes of a working directory: a path's text, filled up with zeros.
pub const DIRECTORY: usize = 54;

// Where the zeros begin that end the header.
pub const SPARE: usize = 1306;
