// What the program says of itself.
ghost use Rattle.std.specs.Prelude.{◌≡◌};
ghost use Rattle.patterns.specs.Buffers.{standard_output, standard_error};

use crate::failures::fail;
use crate::streams::{Stream, write_all};

// Prints what the program reads and prints, or says why that cannot be printed.
pub fn help(rt: &HostRuntime, to: Stream)
    requires { to ≡ standard_output }
{
    let text = b"usage: patterns < INPUT
Reads from standard input the lines of a setup, the last of them `end`, and then command lines.
Prints on standard output an answer a line, and then the listing of all nodes.
A setup that is refused is answered by `no,17,` and the number of its first wrong line.
A failure to read or to write is told on standard error; the exit status tells nothing.
docs/MANUAL.md describes the lines.
";
    if let Err(why) = write_all(rt, to, text) {
        fail(rt, "patterns: cannot write to standard output", why);
    }
}

// Says that the arguments are none that the program takes.
pub fn wrong(rt: &HostRuntime, to: Stream)
    requires { to ≡ standard_error }
{
    let _ = write_all(rt, to, b"patterns: no argument is taken but --help alone\n");
}
