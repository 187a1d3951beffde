// `read`: a file's content, or a directory's names, written over the front of the answer.
ghost use Rattle.std.specs.Prelude.{◌≤◌, length};
ghost use Rattle.tree.specs.RowAt.{row_at};
ghost use Rattle.tree.specs.TreeBytes.{HasRow, Used, Whole, PathText, Whichever};
ghost use Rattle.walks.specs.NamesWritten.{all_names_width, Answers};
ghost use Rattle.shell.specs.Steps.{run_read};
ghost use Rattle.shell.specs.CommandBytes.{Follows};
ghost use Rattle.attributes.specs.Checks.{row_text};

use crate::Deed;
use crate::checks::may_do;
use accounts::Caller;
use shell::Answer;
use tree::{Kind, content_at, kind_at};
use walks::child_names;

// Writes the content of a row over the answer, and tells how many bytes it takes.
fn give_content(tree: &[u8], row: usize, answer: &mut [u8]) -> usize
    requires has_row { HasRow tree.now row }
    requires all_names_width_in_bounds { all_names_width ≤ length answer.old }
    ensures { Answers (row_at tree.now row).here.content answer.old result answer.new }
{
    let content = content_at(tree, row);
    buffers::write(answer, 0, content);
    content.len()
}

// Writes the text of a place over the answer, and tells how many bytes it takes.
fn give_text(tree: &[u8], row: usize, answer: &mut [u8]) -> usize
    requires used { Used tree.now row }
    requires all_names_width_in_bounds { all_names_width ≤ length answer.old }
    ensures { Answers (row_text tree.now row) answer.old result answer.new }
{
    match kind_at(tree, row) {
        Kind::File => give_content(tree, row, answer),
        Kind::Directory => child_names(tree, row, answer),
    }
}

// `read,path`.
pub fn read(tree: &[u8], caller: Caller, path: &[u8], answer: &mut [u8]) -> Answer
    requires whole { Whole tree.now }
    requires path_text { PathText path.now }
    requires all_names_width_in_bounds { all_names_width ≤ length answer.old }
    ensures { Whichever tree.now path.now
        (λ t p. Follows (run_read caller 0 t p) tree.now answer.old result tree.now answer.new) }
{
    let spot = may_do(tree, caller.account, path, Deed::Read)?;
    Ok(Some(give_text(tree, spot.row, answer)))
}
