// The arguments of commands: their kinds, and an argument of a kind read from a part of the line.
#![tactic(auto)]

mod readers;

pub use readers::argument_at;

// What an argument has to be: an entry path is short `Entry`, a mode that begins with 0 `Plain`; an absent one may be anything.
#[derive(Clone, Copy, PartialEq, Eq)]
pub enum ArgumentKind {
    Path,
    Entry,
    Mode,
    Plain,
    Uid,
    Gid,
    Role,
    Password,
    Content,
    Absent,
}
