// What is printed for an answer: a line with its byte 10, written in front of a buffer.
ghost use Rattle.std.specs.Prelude.{◌≡◌, [], ◌∷◌, ◌++◌, ◌+◌, ◌≤◌, eqb, length, take};
ghost use Rattle.buffers.specs.Over.{Wrote};
ghost use Rattle.syntax.specs.Pieces.{bytes, newline};
ghost use Rattle.syntax.specs.Number.{decimal_text};
ghost use Rattle.tree.specs.declared.Cause.TheVariants.{Missing};
ghost use Rattle.tree.specs.Causes.{number as number_of};
ghost use Rattle.shell.specs.Replies.{told};
ghost use Rattle.listing.specs.RowListing.{WroteMost};
ghost use Rattle.calls.specs.Program.{text_told, call_line};
ghost use Rattle.printing.specs.Printed.{Printed};

use buffers::write;
use shell::{Answer, Refusal};
use syntax::write_decimal;
use tree::Cause;

// Document 01's number of a cause.
pub fn number(cause: Cause) -> u8
    ensures { result ≡ number_of cause }
{
    match cause {
        Cause::NoForm => 1,
        Cause::UnknownCaller => 2,
        Cause::Missing => 3,
        Cause::NotDirectory => 4,
        Cause::Access => 5,
        Cause::Exists => 6,
        Cause::WrongKind => 7,
        Cause::NotEmpty => 8,
        Cause::Reserved => 9,
        Cause::Full => 10,
        Cause::IntoItself => 11,
        Cause::NoSession => 12,
        Cause::NoGrant => 13,
        Cause::Stale => 14,
        Cause::Untagged => 15,
        Cause::RevisionsSpent => 16,
        Cause::Unsound => 18,
        Cause::TooDeep => 19,
        Cause::ShortAnswer => 20,
    }
}

// Whether an answer tells that a listing has no such line.
pub fn is_missing(r: Answer) -> bool
    ensures { result ≡ eqb (number_of Missing) (told r).number }
{
    match r {
        Ok(_) => false,
        Err(Refusal::For(cause)) => cause == Cause::Missing,
        Err(Refusal::WrongLine(_)) => false,
    }
}

// Writes a text from a place on, and tells where it ends.
fn write_word(out: &mut [u8], at: usize, word: &[u8]) -> usize
    requires { at + length word.now ≤ length out.old }
    ensures { Wrote word.now out.old at out.new result }
{
    write(out, at, word);
    at + word.len()
}

// Writes the first bytes of the answer buffer, all where it has no more.
fn write_first(out: &mut [u8], at: usize, answer: &[u8], n: usize) -> usize
    requires { at + length answer.now ≤ length out.old }
    ensures { WroteMost (length answer.now) (take n answer.now) out.old at out.new result }
{
    if n < answer.len() {
        write(out, at, &answer[..n]);
        return at + n;
    }
    write_word(out, at, answer)
}

// Writes `ok,text`.
fn write_ok(out: &mut [u8], answer: &[u8], n: usize) -> usize
    requires { length answer.now + 32 ≤ length out.old }
    ensures { WroteMost (length answer.now + 3) (bytes "ok," ++ take n answer.now) out.old 0 out.new result }
{
    let at = write_word(out, 0, b"ok,");
    write_first(out, at, answer, n)
}

// Writes a number behind a word.
fn write_no(out: &mut [u8], word: &[u8], n: usize) -> usize
    requires { length word.now + 20 ≤ length out.old }
    ensures { WroteMost (length word.now + 20) (word.now ++ decimal_text n) out.old 0 out.new result }
{
    let at = write_word(out, 0, word);
    write_decimal(out, at, n)
}

// Writes `ok`, `ok,text`, `no,number` or `no,17,line`.
fn write_answer(out: &mut [u8], r: Answer, answer: &[u8]) -> usize
    requires { length answer.now + 32 ≤ length out.old }
    ensures { WroteMost (length answer.now + 31) (call_line (told r) answer.now) out.old 0 out.new result }
{
    match r {
        Ok(None) => write_word(out, 0, b"ok"),
        Ok(Some(n)) => write_ok(out, answer, n),
        Err(Refusal::For(cause)) => write_no(out, b"no,", number(cause) as usize),
        Err(Refusal::WrongLine(line)) => write_no(out, b"no,17,", line),
    }
}

// Writes the line that is printed for an answer, and tells its length.
pub fn write_reply(r: Answer, answer: &[u8], out: &mut [u8]) -> usize
    requires { length answer.now + 32 ≤ length out.old }
    ensures { Printed (call_line (told r) answer.now ++ (newline ∷ [])) out.old out.new result }
{
    let end = write_answer(out, r, answer);
    out[end] = b'\n';
    end + 1
}

// Writes the first bytes of the answer buffer as a line, and tells its length.
fn write_text(n: usize, answer: &[u8], out: &mut [u8]) -> usize
    requires { length answer.now + 32 ≤ length out.old }
    ensures { Printed (take n answer.now ++ (newline ∷ [])) out.old out.new result }
{
    let end = write_first(out, 0, answer, n);
    out[end] = b'\n';
    end + 1
}

// Writes the line of the listing that an answer tells, its text alone, and tells its length.
#[tactic(auto, unfolding(shell::specs::Replies::told, calls::specs::Program::text_told))]
pub fn write_listed(r: Answer, answer: &[u8], out: &mut [u8]) -> usize
    requires { length answer.now + 32 ≤ length out.old }
    ensures { Printed (text_told (told r).values answer.now ++ (newline ∷ [])) out.old out.new result }
{
    match r {
        Ok(Some(n)) | Err(Refusal::WrongLine(n)) => write_text(n, answer, out),
        Ok(None) => write_text(0, answer, out),
        Err(Refusal::For(_)) => write_text(0, answer, out),
    }
}
