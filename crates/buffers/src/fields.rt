// Numbers, padded texts and zeros read.
ghost use Rattle.std.specs.Prelude.{◌≡◌, ◌+◌, ◌-◌, ◌≤◌, ◌<◌, ◌==◌, length, IfSome};
ghost use Rattle.std.specs.List.{position};
ghost use Rattle.buffers.specs.Fields.{number_at, text_at, zeros_at};

// A number of two bytes, the low one first.
pub fn number(s: &[u8], at: usize) -> u16
    requires { at + 1 < length s.now }
    ensures { result ≡ number_at at s.now }
{
    u16::from_le_bytes([s[at], s[at + 1]])
}

// Where the text in front of a field ends, if a zero ends it.
fn first_zero(field: &[u8]) -> Option<usize>
    ensures value { result ≡ position (λ b. b == 0) field.now }
    ensures within { IfSome result (λ end. end < length field.now) }
{
    field.iter().position(|b| *b == 0)
}

// The text of a field, without the zeros that fill it up.
pub fn text(s: &[u8], at: usize, width: usize) -> &[u8]
    requires { at + width ≤ length s.now }
    ensures { result.now ≡ text_at at width s.now }
{
    let field = &s[at..at + width];
    match first_zero(field) {
        Some(end) => &field[..end],
        None => field,
    }
}

// Whether the bytes from one place up to another are all 0. Without an early exit, so that many are tested at once: they nearly
// always are. Over the range, since a `fold` and a `for` over the slice take twice as long for 64 bytes.
pub fn is_zero(s: &[u8], from: usize, to: usize) -> bool
    requires from_le_to { from ≤ to }
    requires to_in_bounds { to ≤ length s.now }
    ensures { result ≡ zeros_at from (to - from) s.now }
{
    let mut all = 0;
    for i in from..to {
        all |= s[i];
    }
    all == 0
}
