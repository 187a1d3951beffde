// Numbers: decimal without leading zeros, and the four octal digits of a mode. Those of a command line are at most 9999, so
// a decimal of more than four digits is refused unread; the unbounded definition is proved to say the same.
ghost use Rattle.std.specs.Prelude.{◌≡◌, true, ◌≤◌, ◌<◌, length};
ghost use Rattle.buffers.specs.Options.{option_of};
ghost use Rattle.buffers.specs.Text.{every};
ghost use Rattle.syntax.specs.Number.{digit, value_after, no_leading_zero, between as between_of, mode as mode_of, set_gid};

// Whether every byte is a digit below a base.
fn are_digits(s: &[u8], base: u8) -> bool
    requires { base ≤ 10 }
    ensures { result ≡ every (digit base) s.now }
{
    s.iter().all(|b| b'0' <= *b && *b < b'0' + base)
}

// The value of at most four digits.
fn value(s: &[u8], base: u16) -> u16
    requires s_len_bound { length s.now ≤ 4 }
    requires base_bound { base ≤ 10 }
    requires s_value { every (digit base) s.now ≡ true }
    ensures { (result ≡ value_after base 0 s.now) × (result < 10000) }
{
    let mut n = 0;
    for b in s {
        n = n * base + u16::from(*b - b'0');
    }
    n
}

// Whether a text is one byte, or longer without a zero in front.
fn no_leading_zero(s: &[u8]) -> bool
    ensures { result ≡ no_leading_zero s.now }
{
    match s {
        [] => false,
        [_] => true,
        [first, ..] => *first != b'0',
    }
}

// A decimal number from low to high.
pub fn between(s: &[u8], low: u16, high: u16) -> Option<u16>
    requires { high < 10000 }
    ensures { option_of result ≡ between_of low high s.now }
{
    if 4 < s.len() || !are_digits(s, 10) || !no_leading_zero(s) {
        return None;
    }
    let n = value(s, 10);
    if low <= n && n <= high { Some(n) } else { None }
}

// A mode: four octal digits, the first 0 or 2.
pub fn mode(s: &[u8]) -> Option<u16>
    ensures { option_of result ≡ mode_of s.now }
{
    match s {
        [b'0' | b'2', _, _, _] if are_digits(s, 8) => Some(value(s, 8)),
        _ => None,
    }
}

// Whether a mode has set-gid: its first octal digit is 2.
pub fn has_set_gid(mode: u16) -> bool
    ensures { result ≡ set_gid mode }
{
    mode / 512 == 2
}
