// What a node is.
ghost use Rattle.std.specs.Prelude.{◌≡◌};
ghost use Rattle.tree.specs.Node.{is_directory};

use crate::Kind;

// Whether a kind is that of a directory.
#[tactic(auto, unfolding(crate::specs::Node::is_directory))]
pub fn is_directory(kind: Kind) -> bool
    ensures { result ≡ is_directory kind }
{
    matches!(kind, Kind::Directory)
}
