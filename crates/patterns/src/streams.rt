// What the program asks of the system: its standard input, output and error, and its arguments.
ghost use Rattle.std.specs.Prelude.{◌≡◌, ◌≤◌, length};
ghost use Rattle.patterns.specs.Buffers.{Counted};

use crate::failures::fail;
use std::env::{Env, FillError};
use std::io;
use std::io::Read;

// Where a text goes.
#[derive(Clone, Copy)]
pub enum Stream {
    Output,
    Error,
}

// Writes all of a text, or tells why not.
pub fn write_all(rt: &HostRuntime, to: Stream, text: &[u8]) -> io::Result<()> {
    match to {
        Stream::Output => rt.stdout().write_all(text),
        Stream::Error => rt.stderr().write_all(text),
    }
}

// Reads once from standard input: how many bytes, 0 only at its end; where that fails it says why.
pub fn read(rt: &HostRuntime, buffer: &mut [u8]) -> Option<usize>
    ensures { Counted (length buffer.new) result }
{
    match rt.stdin().read(buffer) {
        Ok(n) => Some(n),
        Err(why) => {
            fail(rt, "patterns: cannot read standard input", why);
            None
        }
    }
}

// Puts an argument at the start of a buffer, and tells its length: 0 where it is missing, or longer than the buffer.
pub fn argument(rt: &HostRuntime, i: usize, buffer: &mut [u8]) -> usize
    ensures { result ≤ length buffer.new }
{
    rt.arg(i, buffer).unwrap_or(0)
}

// How many arguments the program was started with, its own name among them; from 3 on it tells 3.
pub fn argument_count(rt: &HostRuntime) -> usize
    ensures { result ≤ 3 }
{
    let mut text = [0u8; 1];
    for i in 0..3 {
        if let Err(FillError::NotPresent) = rt.arg(i, &mut text) {
            return i;
        }
    }
    3
}
