// The search for a child by its name: each child's name is measured and compared in one pass.
ghost use Rattle.std.specs.Prelude.{◌≡◌, ◌≤◌, length, get_or};
ghost use Rattle.tree.specs.RowScan.{child_in};
ghost use Rattle.tree.specs.Search.{search_in};
ghost use Rattle.tree.specs.RowAt.{row_at, all_rows};
ghost use Rattle.tree.specs.TreeBytes.{HasRow, Used};

use crate::Search;
use crate::layout::{FIRST, NAME, NAME_WIDTH, ROW};
use crate::rows::{count, depth_at};

// A byte of a row's name; 0 where the name has ended.
fn name_byte(tree: &[u8], i: usize, k: usize) -> u8
    requires has_row { HasRow tree.now i }
    requires k_in_bounds { k ≤ length (row_at tree.now i).name }
    ensures { result ≡ get_or (row_at tree.now i).name k 0 }
{
    if k < NAME_WIDTH {
        return tree[FIRST + ROW * i + NAME + k];
    }
    0
}

// The child of a place, or where it would stand, and the steps of the search. At the first byte that differs it is done with a child:
// a lesser one is passed, and behind a greater one there is none.
pub fn search_child(tree: &[u8], at: usize, name: &[u8]) -> Search
    requires { Used tree.now at }
    ensures { result ≡ search_in (all_rows tree.now) at name.now }
{
    let n = count(tree);
    let depth = depth_at(tree, at) as usize + 1;
    let mut steps: usize = 0;
    'children: for i in at + 1..n {
        let d = depth_at(tree, i) as usize;
        if d < depth {
            return Search {
                child: Err(i),
                steps,
            };
        }
        if depth < d {
            continue 'children;
        }
        // A `while`, since it is asked behind it how far the names were alike.
        let mut k: usize = 0;
        'bytes: while k < name.len() {
            let a = name_byte(tree, i, k);
            let b = name[k];
            if a != b {
                steps += k + 1; // they differ
                if b < a {
                    return Search {
                        child: Err(i),
                        steps,
                    };
                }
                continue 'children;
            }
            if a == 0 {
                steps += k + 1; // the child's name has ended, and the one sought goes on, with a byte 0
                continue 'children;
            }
            k += 1;
        }
        if name_byte(tree, i, k) == 0 {
            return Search {
                child: Ok(i),
                steps: steps + k + 1, // both end
            };
        }
        return Search {
            child: Err(i),
            steps: steps + k + 1, // the child's goes on
        };
    }
    Search {
        child: Err(n),
        steps, // the rows are over
    }
}

// The row of the child of a place, or the row before which it would stand.
pub fn find_child(tree: &[u8], at: usize, name: &[u8]) -> Result<usize, usize>
    requires { Used tree.now at }
    ensures { result ≡ child_in (all_rows tree.now) at name.now }
{
    search_child(tree, at, name).child
}
