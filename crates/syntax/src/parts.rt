// A part of a text: the bytes at its places.
ghost use Rattle.std.specs.Prelude.{◌≡◌};
ghost use Rattle.syntax.specs.Parts.{Inside, span_text};

use crate::Span;

impl Span {
    // The bytes of a text that the part has.
    pub fn of(self, text: &[u8]) -> &[u8]
        requires { Inside self text.now }
        ensures { result.now ≡ span_text text.now self }
    {
        &text[self.start..self.end]
    }
}
