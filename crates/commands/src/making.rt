// The command that a typed one is, once its paths are whole.
ghost use Rattle.commands.specs.Parsed.{MakesOf};

use crate::{AccountCommand, Command, EntryCommand, ShellCommand, Typed, Word};
use accounts::{Gid, Role, Uid};

// The command of a word, made of its arguments and their numbers: over every text it means what whole paths there make.
pub fn command_of(typed: Typed) -> Command
    ensures { MakesOf typed result }
{
    let word = typed.word;
    let f = typed.fields;
    let a = f.first;
    let b = f.second;
    let first = typed.first;
    let second = typed.second;
    let third = typed.third;
    match word {
        Word::Create => Command::Shell(ShellCommand::Create {
            path: a,
            mode: second,
        }),
        Word::Mkdir => Command::Shell(ShellCommand::Mkdir {
            path: a,
            mode: second,
        }),
        Word::Read => Command::Shell(ShellCommand::Read { path: a }),
        Word::Write => Command::Shell(ShellCommand::Write {
            path: a,
            content: b,
        }),
        Word::Rm => Command::Shell(ShellCommand::Rm { path: a }),
        Word::Rmdir => Command::Shell(ShellCommand::Rmdir { path: a }),
        Word::Mv => Command::Shell(ShellCommand::Mv { from: a, to: b }),
        Word::Chmod => Command::Shell(ShellCommand::Chmod {
            path: a,
            mode: second,
        }),
        Word::Chgrp => Command::Shell(ShellCommand::Chgrp {
            path: a,
            group: Gid((second % 256) as u8),
        }),
        Word::Chown => Command::Shell(ShellCommand::Chown {
            path: a,
            owner: Uid((second % 256) as u8),
        }),
        Word::Login => Command::Account(AccountCommand::Login {
            role: Role((first % 256) as u8),
            password: b,
        }),
        Word::Logout => Command::Account(AccountCommand::Logout),
        Word::Cd => Command::Account(AccountCommand::Cd { path: a }),
        Word::Add => Command::Entry(EntryCommand::Add {
            working: a,
            entry: b,
            role: Role((third % 256) as u8),
        }),
        Word::Co => Command::Entry(EntryCommand::Co { entry: a, to: b }),
        Word::Commit => Command::Entry(EntryCommand::Commit { working: a }),
        Word::Up => Command::Entry(EntryCommand::Up { working: a }),
        Word::Del => Command::Entry(EntryCommand::Del { entry: a }),
    }
}
