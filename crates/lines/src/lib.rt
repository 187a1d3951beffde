// One line of the setup text, read into a small value.
#![tactic(auto)]

mod line;

use accounts::{Gid, Role, Uid};
pub use line::line_at;
use syntax::Span;

// The word that a line starts with: p, g, r or l, in the order in which such lines stand.
#[derive(Clone, Copy, PartialEq, Eq)]
pub enum LineKind {
    Person,
    Group,
    Pair,
    Grant,
}

// A line before `end`, whose password is a part of the setup text.
#[derive(Clone, Copy)]
pub enum SetupLine {
    Person {
        uid: Uid,
        gid: Gid,
    },
    Group {
        uid: Uid,
        gid: Gid,
    },
    Pair {
        senior: Role,
        junior: Role,
    },
    Grant {
        uid: Uid,
        role: Role,
        password: Span,
    },
}
