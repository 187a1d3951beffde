// A store while its setup is read line by line: begun, read into, opened.
ghost use Rattle.std.specs.Prelude.{◌≡◌, map, ◌+◌, ◌*◌, ◌≤◌, length, take, drop};
ghost use Rattle.setup.specs.Setup.{no_setup};
ghost use Rattle.setup.specs.SetupStep.{setup_step};
ghost use Rattle.store.specs.HeaderLayout.{slot_width, sessions_offset};
ghost use Rattle.store.specs.InitialRows.{slot_value};
ghost use Rattle.store.specs.StoreBytes.{store_width, slot_of, setup_of};
ghost use Rattle.store.specs.SetupHeader.{reading_in, headed, first_store};
ghost use Rattle.setups.specs.LineRead.{BegunStore, read_as, line_call};

use crate::LineRead;
use crate::directories::write_directories;
use crate::line::read_line;
use accounts::{Gid, Groups};
use buffers::{clear, number};
use store::{HEADER, Person, SLOT, write_initial};

// What the slot of an account holds.
fn slot_in(header: &[u8], k: usize) -> Person
    requires { slot_width * k + slot_width ≤ length header.now }
    ensures { slot_value result ≡ slot_of (take slot_width (drop (slot_width * k) header.now)) }
{
    let at = SLOT * k;
    let primary = Gid(header[at]);
    let further = Groups(number(header, at + 1) as u32);
    Person { primary, further }
}

// What the slots of all accounts hold.
fn slots_in(header: &[u8]) -> [Person; 16]
    requires { sessions_offset ≤ length header.now }
    ensures { map slot_value result ≡ (setup_of header.now).persons }
{
    let mut persons = [Person {
        primary: Gid(0),
        further: Groups(0),
    }; 16];
    // `array::from_fn` was tried: that the array is the slots' did not close.
    for k in 0..16 {
        persons[k] = slot_in(header, k);
    }
    persons
}

// Begins a setup: its store has the header of a setup of nothing, and the bytes behind it stay.
pub fn begin_store(store: &mut [u8])
    requires { length store.old ≡ store_width }
    ensures { store.new ≡ headed no_setup store.old }
{
    clear(store, 0, HEADER);
}

// Opens the store of the setup that its header holds: the first working directories stand in it, the initial tree behind it.
pub fn open_store(store: &mut [u8])
    requires { BegunStore store.old }
    ensures { store.new ≡ first_store (setup_of store.old) }
{
    let persons = slots_in(store);
    write_directories(store, persons);
    write_initial(&mut store[HEADER..], persons);
}

// Reads a line of the setup into its store, behind lines of which the last was of this kind; `end` opens the store.
pub fn setup_line(store: &mut [u8], kind: u8, line: &[u8]) -> Option<LineRead>
    requires begun_store { BegunStore store.old }
    requires kind_bound { kind ≤ 3 }
    ensures { read_as result store.new ≡ line_call store.old (setup_step line.now (reading_in kind store.old)) }
{
    let read = read_line(&mut store[..HEADER], kind, line)?;
    if let LineRead::End = read {
        open_store(store);
    }
    Some(read)
}
