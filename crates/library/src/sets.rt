// `setup`: a store made from a setup text.
ghost use Rattle.std.specs.Prelude.{◌≡◌};
ghost use Rattle.calls.specs.Calls.{setup_call};
ghost use Rattle.library.specs.CallBytes.{set_up_as};

use setups::{WrongLine, make_store};
use shell::{Answer, Refusal};
use store::STORE;
use tree::Cause;

// Makes the store that a setup text says, whatever stood there; a wrong text leaves the buffer.
pub fn setup(store: &mut [u8], text: &[u8]) -> Answer
    ensures { set_up_as result store.new ≡ setup_call store.old text.now }
{
    if store.len() != STORE {
        return Err(Refusal::For(Cause::Unsound));
    }
    match make_store(store, text) {
        Ok(()) => Ok(None),
        Err(WrongLine(number)) => Err(Refusal::WrongLine(number)),
    }
}
