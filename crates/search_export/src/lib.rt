// The search for a child as a call, for the tests to link: they hold its steps to a count of their own. It is no call of the
// library, and no header declares it.
#![tactic(auto)]

ghost use Rattle.std.specs.Prelude.{◌≡◌};
ghost use Rattle.search_export.specs.SearchCall.{is_used, number_told, place_told, search_call};

use tree::{MOST_ROWS, TREE, count, search_child};

// What the call answers, numbers since an enum does not pass to C: the child was found, it is missing, the bytes have no such row.
const FOUND: u32 = 0;

const MISSING: u32 = 1;

const NO_ROW: u32 = 2;

// Whether bytes are as many as a tree's, with no more rows than there is room for, and one of these at an index.
fn has_row(tree: &[u8], at: usize) -> bool
    ensures { result ≡ is_used tree.now at }
{
    tree.len() == TREE && count(tree) <= MOST_ROWS && at < count(tree)
}

// Whether the child was found, as a number.
fn number_of(child: Result<usize, usize>) -> u32
    ensures { result ≡ number_told child }
{
    match child {
        Ok(_) => FOUND,
        Err(_) => MISSING,
    }
}

// Its row, or where it would stand.
fn place_of(child: Result<usize, usize>) -> u64
    ensures { result ≡ place_told child }
{
    child.unwrap_or_else(|i| i) as u64
}

// The child of a name of the place whose row has an index: its row or where it would stand, and the steps of the search.
#[unsafe(no_mangle)]
pub extern "C" fn tree_search(
    tree: &[u8],
    at: usize,
    name: &[u8],
    place: &mut u64,
    steps: &mut u64,
) -> u32
    ensures value { result ≡ (search_call tree.now at name.now place.old steps.old).number }
    ensures place_after { place.new ≡ (search_call tree.now at name.now place.old steps.old).place }
    ensures steps_after { steps.new ≡ (search_call tree.now at name.now place.old steps.old).steps }
{
    if !has_row(tree, at) {
        return NO_ROW;
    }
    let found = search_child(tree, at, name);
    *place = place_of(found.child);
    *steps = found.steps as u64;
    number_of(found.child)
}
