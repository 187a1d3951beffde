// What lies below a row: whether anything does, how far down it goes, and the names of the children.
ghost use Rattle.std.specs.Prelude.{◌≡◌, [], ◌∷◌, ◌+◌, ◌-◌, ◌≤◌, ◌<◌, length};
ghost use Rattle.tree.specs.Layout.{name_width};
ghost use Rattle.tree.specs.RowAt.{row_at, all_rows};
ghost use Rattle.tree.specs.TreeBytes.{HasRow, Used};
ghost use Rattle.walks.specs.RowBelow.{has_children_in, height_in, names_in, child_text_in};
ghost use Rattle.walks.specs.NamesWritten.{all_names_width, WritesOne, Answers};

use buffers::write;
use tree::{count, depth_at, name_at};

// Whether a row has children: the first would be the next row.
pub fn has_children(tree: &[u8], at: usize) -> bool
    requires { Used tree.now at }
    ensures { result ≡ has_children_in (all_rows tree.now) at }
{
    at + 1 < count(tree) && depth_at(tree, at) < depth_at(tree, at + 1)
}

// How many levels of rows lie below a row.
pub fn height_below(tree: &[u8], at: usize) -> usize
    requires { Used tree.now at }
    ensures { (result ≡ height_in (all_rows tree.now) at) × (result ≤ 255) }
{
    let n = count(tree);
    let depth = depth_at(tree, at);
    let mut most = depth;
    for i in at + 1..n {
        let d = depth_at(tree, i);
        if d <= depth {
            return (most - depth) as usize;
        }
        most = most.max(d);
    }
    (most - depth) as usize
}

// Adds a name to those written, with a comma before it unless it is the first; tells where the next would stand.
fn add_name(answer: &mut [u8], place: usize, name: &[u8]) -> usize
    requires name_in_bounds { place + length name.now ≤ length answer.old }
    requires name_len_bound { length name.now ≤ name_width }
    ensures { WritesOne (name.now ∷ []) answer.old place answer.new result }
{
    if place == 0 {
        write(answer, 0, name);
        return name.len() + 1;
    }
    answer[place - 1] = b',';
    write(answer, place, name);
    place + name.len() + 1
}

// Adds the name of a row to those written if the row lies at a depth.
fn add_child(tree: &[u8], i: usize, depth: usize, answer: &mut [u8], place: usize) -> usize
    requires has_row { HasRow tree.now i }
    requires name_width_in_bounds { place + name_width ≤ length answer.old }
    ensures { WritesOne (names_in depth (row_at tree.now i ∷ [])) answer.old place answer.new result }
{
    if depth_at(tree, i) as usize != depth {
        return place;
    }
    add_name(answer, place, name_at(tree, i))
}

// How many bytes the names take: all up to the comma before the next place.
fn bytes_before(place: usize) -> usize
    ensures { result ≡ place - 1 }
{
    place.saturating_sub(1)
}

// Writes the names of the children, parted by commas, over the answer, and tells how many bytes they take.
pub fn child_names(tree: &[u8], at: usize, answer: &mut [u8]) -> usize
    requires used { Used tree.now at }
    requires all_names_width_in_bounds { all_names_width ≤ length answer.old }
    ensures { Answers (child_text_in (all_rows tree.now) at) answer.old result answer.new }
{
    let n = count(tree);
    let depth = depth_at(tree, at) as usize + 1;
    let mut place: usize = 0;
    for i in at + 1..n {
        if (depth_at(tree, i) as usize) < depth {
            return bytes_before(place);
        }
        place = add_child(tree, i, depth, answer, place);
    }
    bytes_before(place)
}
