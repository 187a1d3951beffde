// Numbers written as texts over a buffer, each from a place on; the answer is where it ends. A decimal asks for the room of
// its digits alone: the wrong line of a setup may be any number, those of a listing are small.
ghost use Rattle.std.specs.Prelude.{◌+◌, ◌≤◌, length};
ghost use Rattle.buffers.specs.Over.{Wrote};
ghost use Rattle.syntax.specs.Number.{decimal_text, mode_text};

use buffers::write;

// Writes a number as decimal digits without leading zeros: all digits but the last, then the last behind them.
pub fn write_decimal(b: &mut [u8], at: usize, n: usize) -> usize
    requires { at + length (decimal_text n) ≤ length b.old }
    ensures { Wrote (decimal_text n) b.old at b.new result }
{
    if n < 10 {
        b[at] = b'0' + n as u8;
        return at + 1;
    }
    let end = write_decimal(b, at, n / 10);
    b[end] = b'0' + (n % 10) as u8;
    end + 1
}

// Writes a mode as its four octal digits.
pub fn write_mode(b: &mut [u8], at: usize, mode: u16) -> usize
    requires { at + 4 ≤ length b.old }
    ensures { Wrote (mode_text mode) b.old at b.new result }
{
    let first = b'0' + (mode / 512) as u8;
    let second = b'0' + (mode / 64 % 8) as u8;
    let third = b'0' + (mode / 8 % 8) as u8;
    let fourth = b'0' + (mode % 8) as u8;
    write(b, at, &[first, second, third, fourth]);
    at + 4
}
