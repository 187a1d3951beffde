// Texts compared.
ghost use Rattle.std.specs.Prelude.{◌≡◌};
ghost use Rattle.buffers.specs.Text.{same_text};

// Whether two texts are the same. `==` wants both sides of one type: at each use a literal would have to be made a slice.
pub fn same(s: &[u8], t: &[u8]) -> bool
    ensures { result ≡ same_text s.now t.now }
{
    s == t
}
