// `listing`: one line of a store's listing.
ghost use Rattle.std.specs.Prelude.{◌≡◌, List, ℕ, ◌≤◌, length};
ghost use Rattle.tree.specs.TreeBytes.{Encodes, Whole};
ghost use Rattle.store.specs.State.{State};
ghost use Rattle.calls.specs.Calls.{called, listing_on, listing_call};
ghost use Rattle.library.specs.CallBytes.{called_as};

use crate::LEAST_ROOM;
use listing::write_line;
use shell::{Answer, Refusal};
use sound_store::holds_store;
use store::HEADER;
use tree::{Cause, count};

// Line n of a tree's listing, or none past the last.
fn line_of(tree: &[u8], n: usize, answer: &mut [u8]) -> Answer
    requires whole { Whole tree.now }
    requires in_bounds { 4096 ≤ length answer.old }
    ensures { (s : State) (b : List ℕ) → Encodes tree.now s.store.tree
        → called_as result b answer.new ≡ called b answer.old (listing_on b n s) }
{
    if count(tree) <= n {
        return Err(Refusal::For(Cause::Missing));
    }
    Ok(Some(write_line(tree, n, answer)))
}

// Line n of the listing, from 0, in front of the answer. It changes no store.
pub fn listing(store: &[u8], n: usize, answer: &mut [u8]) -> Answer
    ensures { called_as result store.now answer.new ≡ listing_call store.now n answer.old }
{
    if answer.len() < LEAST_ROOM {
        return Err(Refusal::For(Cause::ShortAnswer));
    }
    if !holds_store(store) {
        return Err(Refusal::For(Cause::Unsound));
    }
    line_of(&store[HEADER..], n, answer)
}
