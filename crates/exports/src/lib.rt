// The three library calls for C and Rust: a slice passes as a pointer and a length, an answer, since an enum does not pass
// to C, as its number and a value through a lent number. include/patterns.h declares them.
#![tactic(auto)]

ghost use Rattle.std.specs.Prelude.{◌≡◌};
ghost use Rattle.shell.specs.Replies.{told};
ghost use Rattle.calls.specs.Calls.{setup_call, run_call, listing_call};
ghost use Rattle.exports.specs.Exported.{value_told, HandedOver};

use library::{listing, run, setup};
use printing::number;
use shell::{Answer, Refusal};

// Where there is no value: so a done command without a text is told from one with an empty text.
const NO_VALUE: u64 = 18446744073709551615;

// The number of a wrong setup line.
const WRONG_SETUP: u32 = 17;

// The number that an answer tells.
#[tactic(auto, unfolding(shell::specs::Replies::told))]
fn number_of(r: Answer) -> u32
    ensures { result ≡ (told r).number }
{
    match r {
        Ok(_) => 0,
        Err(Refusal::For(cause)) => number(cause) as u32,
        Err(Refusal::WrongLine(_)) => WRONG_SETUP,
    }
}

// The value beside it: a text's length, or the wrong line's number.
#[tactic(auto, unfolding(shell::specs::Replies::told, crate::specs::Exported::value_told, crate::specs::Exported::no_value))]
fn value_of(r: Answer) -> u64
    ensures { result ≡ value_told (told r).values }
{
    match r {
        Ok(Some(n)) | Err(Refusal::WrongLine(n)) => n as u64,
        Ok(None) => NO_VALUE,
        Err(Refusal::For(_)) => NO_VALUE,
    }
}

// Makes the store that a setup text says.
#[unsafe(no_mangle)]
pub extern "C" fn patterns_setup(store: &mut [u8], text: &[u8], value: &mut u64) -> u32
    ensures handed_over { HandedOver (setup_call store.old text.now).tells result value.new }
    ensures store_after { store.new ≡ (setup_call store.old text.now).store }
{
    let r = setup(store, text);
    *value = value_of(r);
    number_of(r)
}

// Carries out one command line.
#[unsafe(no_mangle)]
pub extern "C" fn patterns_run(
    store: &mut [u8],
    line: &[u8],
    answer: &mut [u8],
    value: &mut u64,
) -> u32
    ensures handed_over { HandedOver (run_call store.old line.now answer.old).tells result value.new }
    ensures store_after { store.new ≡ (run_call store.old line.now answer.old).store }
    ensures answer_after { answer.new ≡ (run_call store.old line.now answer.old).answer }
{
    let r = run(store, line, answer);
    *value = value_of(r);
    number_of(r)
}

// Line n of the listing, from 0.
#[unsafe(no_mangle)]
pub extern "C" fn patterns_listing(
    store: &[u8],
    n: usize,
    answer: &mut [u8],
    value: &mut u64,
) -> u32
    ensures handed_over { HandedOver (listing_call store.now n answer.old).tells result value.new }
    ensures answer_after { answer.new ≡ (listing_call store.now n answer.old).answer }
{
    let r = listing(store, n, answer);
    *value = value_of(r);
    number_of(r)
}
