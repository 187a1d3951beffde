// Command lines: what they are, their parser, and the commands made of them.
#![tactic(auto)]

mod making;
mod parser;
mod shapes;
mod words;

use accounts::{Gid, Role, Uid};
use arguments::ArgumentKind;
use line_fields::Fields;
pub use making::command_of;
pub use parser::parse;
use syntax::Span;

// A command of the shell, whose paths and contents are parts of a text.
#[derive(Clone, Copy)]
pub enum ShellCommand {
    Create { path: Span, mode: u16 },
    Mkdir { path: Span, mode: u16 },
    Read { path: Span },
    Write { path: Span, content: Span },
    Rm { path: Span },
    Rmdir { path: Span },
    Mv { from: Span, to: Span },
    Chmod { path: Span, mode: u16 },
    Chgrp { path: Span, group: Gid },
    Chown { path: Span, owner: Uid },
}

// A command about the caller's session and working directory.
#[derive(Clone, Copy)]
pub enum AccountCommand {
    Login { role: Role, password: Span },
    Logout,
    Cd { path: Span },
}

// A command on entries, which acts in the caller's session.
#[derive(Clone, Copy)]
pub enum EntryCommand {
    Add {
        working: Span,
        entry: Span,
        role: Role,
    },
    Co {
        entry: Span,
        to: Span,
    },
    Commit {
        working: Span,
    },
    Up {
        working: Span,
    },
    Del {
        entry: Span,
    },
}

// A command by its kind.
#[derive(Clone, Copy)]
pub enum Command {
    Shell(ShellCommand),
    Account(AccountCommand),
    Entry(EntryCommand),
}

// The words of commands.
#[derive(Clone, Copy)]
pub enum Word {
    Create,
    Mkdir,
    Read,
    Write,
    Rm,
    Rmdir,
    Mv,
    Chmod,
    Chgrp,
    Chown,
    Login,
    Logout,
    Cd,
    Add,
    Co,
    Commit,
    Up,
    Del,
}

// How many arguments a word takes, and of which kind each is.
#[derive(Clone, Copy)]
pub struct Shape {
    pub count: usize,
    pub first: ArgumentKind,
    pub second: ArgumentKind,
    pub third: ArgumentKind,
}

// A command as it is typed: its word, the kinds and places of its arguments, and their numbers.
#[derive(Clone, Copy)]
pub struct Typed {
    pub word: Word,
    pub shape: Shape,
    pub fields: Fields,
    pub first: u16,
    pub second: u16,
    pub third: u16,
}

// A command line: its caller and command.
#[derive(Clone, Copy)]
pub struct CommandLine {
    pub caller: Uid,
    pub typed: Typed,
}
