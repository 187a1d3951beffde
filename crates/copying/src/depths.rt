// How deep copies come to stand.
ghost use Rattle.std.specs.Prelude.{◌≡◌, ◌≤◌, length};
ghost use Rattle.tree.specs.Layout.{row_start};
ghost use Rattle.copying.specs.CopyRows.{deepest_from};

use tree::depth_at;

// The greatest depth among the first n rows.
pub fn deepest_copy(out: &[u8], n: usize) -> u8
    requires { row_start n ≤ length out.now }
    ensures { result ≡ deepest_from out.now 0 0 n }
{
    let mut most: u8 = 0;
    for i in 0..n {
        most = most.max(depth_at(out, i));
    }
    most
}
