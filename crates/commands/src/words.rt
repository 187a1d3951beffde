// The words of commands, each with its spelling and the kinds of its arguments. They are data, as in `listed` of `Command.antt`,
// and arguments are read by their kind. docs/ADDING.md says what a new one touches.
ghost use Rattle.std.specs.Prelude.{◌≡◌, ◌≤◌, length};
ghost use Rattle.commands.specs.Command.{listed};
ghost use Rattle.commands.specs.Words.{shape_of, word_of};

use crate::{Shape, Word};
use arguments::ArgumentKind;
use buffers::same;

// All words, the shell's first.
const WORDS: [Word; 18] = [
    Word::Create,
    Word::Mkdir,
    Word::Read,
    Word::Write,
    Word::Rm,
    Word::Rmdir,
    Word::Mv,
    Word::Chmod,
    Word::Chgrp,
    Word::Chown,
    Word::Login,
    Word::Logout,
    Word::Cd,
    Word::Add,
    Word::Co,
    Word::Commit,
    Word::Up,
    Word::Del,
];

impl Shape {
    // The shape of arguments of these kinds.
    fn of(kinds: &[ArgumentKind]) -> Self
        requires { length kinds.now ≤ 3 }
        ensures { result ≡ shape_of kinds.now }
    {
        let kind = |i: usize| kinds.get(i).copied().unwrap_or(ArgumentKind::Absent);
        Shape {
            count: kinds.len(),
            first: kind(0),
            second: kind(1),
            third: kind(2),
        }
    }
}

impl Word {
    // How the word is spelled.
    #[tactic(auto, unfolding(crate::specs::Command::listed, crate::specs::Command::takes, syntax::specs::Pieces::bytes))]
    fn spelling(self) -> &'static [u8]
        ensures { result.now ≡ (listed self).spelling }
    {
        match self {
            Word::Create => b"create",
            Word::Mkdir => b"mkdir",
            Word::Read => b"read",
            Word::Write => b"write",
            Word::Rm => b"rm",
            Word::Rmdir => b"rmdir",
            Word::Mv => b"mv",
            Word::Chmod => b"chmod",
            Word::Chgrp => b"chgrp",
            Word::Chown => b"chown",
            Word::Login => b"login",
            Word::Logout => b"logout",
            Word::Cd => b"cd",
            Word::Add => b"add",
            Word::Co => b"co",
            Word::Commit => b"commit",
            Word::Up => b"up",
            Word::Del => b"del",
        }
    }

    // The shape of its arguments.
    #[tactic(auto, unfolding(crate::specs::Command::listed, crate::specs::Command::takes))]
    pub fn shape(self) -> Shape
        ensures { result ≡ shape_of (listed self).kinds }
    {
        match self {
            Word::Create => Shape::of(&[ArgumentKind::Path, ArgumentKind::Plain]),
            Word::Mkdir => Shape::of(&[ArgumentKind::Path, ArgumentKind::Mode]),
            Word::Read => Shape::of(&[ArgumentKind::Path]),
            Word::Write => Shape::of(&[ArgumentKind::Path, ArgumentKind::Content]),
            Word::Rm => Shape::of(&[ArgumentKind::Path]),
            Word::Rmdir => Shape::of(&[ArgumentKind::Path]),
            Word::Mv => Shape::of(&[ArgumentKind::Path, ArgumentKind::Path]),
            Word::Chmod => Shape::of(&[ArgumentKind::Path, ArgumentKind::Mode]),
            Word::Chgrp => Shape::of(&[ArgumentKind::Path, ArgumentKind::Gid]),
            Word::Chown => Shape::of(&[ArgumentKind::Path, ArgumentKind::Uid]),
            Word::Login => Shape::of(&[ArgumentKind::Role, ArgumentKind::Password]),
            Word::Logout => Shape::of(&[]),
            Word::Cd => Shape::of(&[ArgumentKind::Path]),
            Word::Add => Shape::of(&[ArgumentKind::Path, ArgumentKind::Entry, ArgumentKind::Role]),
            Word::Co => Shape::of(&[ArgumentKind::Entry, ArgumentKind::Path]),
            Word::Commit => Shape::of(&[ArgumentKind::Path]),
            Word::Up => Shape::of(&[ArgumentKind::Path]),
            Word::Del => Shape::of(&[ArgumentKind::Entry]),
        }
    }
}

// The word that a text spells, if any.
#[tactic(auto, unfolding(crate::specs::Command::words, crate::specs::Command::shell_words, crate::specs::Command::other_words, crate::specs::Words::word_of))]
pub fn word_of(t: &[u8]) -> Option<Word>
    ensures { result ≡ word_of t.now }
{
    WORDS.iter().copied().find(|word| same(t, word.spelling()))
}
