// A parsed command of the shell carried out on a tree's bytes.
#![tactic(auto)]

ghost use Rattle.std.specs.Prelude.{◌≤◌, length};
ghost use Rattle.tree.specs.TreeBytes.{Whole};
ghost use Rattle.commands.specs.Meaning.{SomeShellCommand};
ghost use Rattle.shell_runner.specs.ShellDone.{ShellDone};

use accounts::Caller;
use attributes::{chgrp, chmod, chown, read, write};
use commands::ShellCommand;
use nodes::{create, mv, rm};
use shell::Answer;
use tree::Kind;

// One of the shell's commands.
pub fn shell_command(
    tree: &mut [u8],
    caller: Caller,
    line: &[u8],
    command: ShellCommand,
    answer: &mut [u8],
) -> Answer
    requires whole { Whole tree.old }
    requires some_shell_command { SomeShellCommand line.now command }
    requires in_bounds { 4096 ≤ length answer.old }
    ensures { ShellDone caller line.now command tree.old answer.old result tree.new answer.new }
{
    match command {
        ShellCommand::Create { path, mode } => create(
            tree,
            caller,
            Kind::File,
            path.of(line),
            mode,
        ),
        ShellCommand::Mkdir { path, mode } => create(
            tree,
            caller,
            Kind::Directory,
            path.of(line),
            mode,
        ),
        ShellCommand::Read { path } => read(tree, caller, path.of(line), answer),
        ShellCommand::Write { path, content } => write(
            tree,
            caller,
            path.of(line),
            content.of(line),
        ),
        ShellCommand::Rm { path } => rm(tree, caller, Kind::File, path.of(line)),
        ShellCommand::Rmdir { path } => rm(tree, caller, Kind::Directory, path.of(line)),
        ShellCommand::Mv { from, to } => mv(tree, caller, from.of(line), to.of(line)),
        ShellCommand::Chmod { path, mode } => chmod(tree, caller, path.of(line), mode),
        ShellCommand::Chgrp { path, group } => chgrp(tree, caller, path.of(line), group),
        ShellCommand::Chown { path, owner } => chown(tree, caller, path.of(line), owner),
    }
}
