// The file tree as rows in preorder in a lent buffer of 58,114 bytes; docs/FORMAT.md has the layout.
#![tactic(auto)]

mod children;
mod kinds;
mod layout;
mod rows;
mod scan;

pub use children::{find_child, search_child};
pub use kinds::is_directory;
pub use layout::{
    BEHIND_NAME, CONTENT, CONTENT_WIDTH, DIRECTORY, FEW_ROWS, FILE, FIRST, GROUP, HALF_ROWS, KIND,
    LAST_REVISION, MANY_ROWS, MODE, MOST_ROWS, NAME, NAME_WIDTH, OWNER, REVISION, ROW, SOME_ROWS,
    TAG, TAG_REVISION, TAG_WIDTH, TREE,
};
pub use rows::{
    content_at, count, depth_at, group_at, kind_at, mode_at, name_at, owner_at, revision_at,
    tag_path_at, tag_revision_at,
};
pub use scan::subtree_end;

// What a node is.
#[derive(Clone, Copy, PartialEq, Eq, Debug)]
pub enum Kind {
    File,
    Directory,
}

// Why a call was refused; document 01 gives each cause a number. Causes stand in this crate, the lowest that refuses
// anything, so that a walk answers what the call will.
#[derive(Clone, Copy, PartialEq, Eq, Debug)]
pub enum Cause {
    NoForm,
    UnknownCaller,
    Missing,
    NotDirectory,
    Access,
    Exists,
    WrongKind,
    NotEmpty,
    Reserved,
    Full,
    IntoItself,
    NoSession,
    NoGrant,
    Stale,
    Untagged,
    RevisionsSpent,
    Unsound,
    TooDeep,
    ShortAnswer,
}

// What a refused call answers: a cause, or where the setup went wrong. Nothing has changed then.
#[derive(Clone, Copy, PartialEq, Eq, Debug)]
pub enum Refusal {
    For(Cause),
    // The setup's first wrong line, from 1.
    WrongLine(usize),
}

impl From<Cause> for Refusal {
    ghost use Rattle.std.specs.Prelude.{◌≡◌};
    ghost use Rattle.tree.specs.declared.Refusal.TheVariants.{For};

    ghost from_gives = { λ why refusal. refusal ≡ For why };

    fn from(why: Cause) -> Refusal {
        Refusal::For(why)
    }
}

// What a search for a child found, its row or the one before which a child of that name would stand, and its steps: of each child
// tried the bytes alike from the front, and one more.
#[derive(Clone, Copy)]
pub struct Search {
    pub child: Result<usize, usize>,
    pub steps: usize,
}
