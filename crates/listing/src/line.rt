// A line of the listing.
ghost use Rattle.std.specs.Prelude.{◌≤◌, ◌<◌, length};
ghost use Rattle.std.proofs.Math.ListN.{get_elem?};
ghost use Rattle.tree.specs.Forest.{Place};
ghost use Rattle.tree.specs.Node.{Node};
ghost use Rattle.tree.specs.RowAt.{row_count};
ghost use Rattle.tree.specs.TreeBytes.{Encodes, Whole};
ghost use Rattle.listing.specs.Listing.{listing, LineWritten};

use crate::fields::write_fields;
use crate::path::write_path;

// Writes line n of the listing in front of the answer, and tells its length.
pub fn write_line(tree: &[u8], n: usize, answer: &mut [u8]) -> usize
    requires whole { Whole tree.now }
    requires n_bound { n < row_count tree.now }
    requires in_bounds { 256 ≤ length answer.old }
    ensures { (t : Place Node) → Encodes tree.now t
        → LineWritten (get_elem? (listing t) n) answer.old result answer.new }
{
    let end = write_path(tree, n, answer);
    write_fields(tree, n, answer, end)
}
