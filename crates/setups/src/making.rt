// A whole setup text: read line by line into a header, and made a store.
ghost use Rattle.std.specs.Prelude.{◌≡◌, length};
ghost use Rattle.setup.specs.Setup.{wrong_line, no_setup, setup};
ghost use Rattle.store.specs.HeaderLayout.{WideHeader};
ghost use Rattle.store.specs.StoreBytes.{store_width};
ghost use Rattle.store.specs.SetupHeader.{setup_header};
ghost use Rattle.setups.specs.Making.{text_as, header_made, store_made};

use crate::line::read_line;
use crate::opening::open_store;
use crate::{LineRead, WrongLine};
use buffers::{clear, write};
use store::HEADER;
use syntax::piece_end;

// A wrong line: the header holds nothing again.
fn refuse(header: &mut [u8], number: usize) -> WrongLine
    requires { WideHeader header.old }
    ensures { text_as (Err result) header.new ≡ header_made (wrong_line number) }
{
    clear(header, 0, HEADER);
    WrongLine(number)
}

// Reads a setup text into a header of nothing.
fn read_header(header: &mut [u8], text: &[u8]) -> Result<(), WrongLine>
    requires { header.old ≡ setup_header no_setup }
    ensures { text_as result header.new ≡ header_made (setup text.now) }
{
    let mut kind = 0;
    let mut at = 0;
    let mut number: usize = 0;
    // No `for`: each line tells where the next begins, and `end` ends them.
    loop {
        number += 1;
        let end = piece_end(text, at, b'\n');
        if end == text.len() {
            return Err(refuse(header, number));
        }
        let Some(read) = read_line(header, kind, &text[at..end]) else {
            return Err(refuse(header, number));
        };
        match read {
            LineRead::More(next) => {
                kind = next;
                at = end + 1;
            }
            LineRead::End => {
                if end + 1 == text.len() {
                    return Ok(());
                }
                return Err(refuse(header, number + 1));
            }
        }
    }
}

// Makes the store of a setup text, whatever stood there; a wrong text leaves it.
pub fn make_store(store: &mut [u8], text: &[u8]) -> Result<(), WrongLine>
    requires { length store.old ≡ store_width }
    ensures { text_as result store.new ≡ store_made store.old (setup text.now) }
{
    let mut header = [0u8; HEADER];
    read_header(&mut header, text)?;
    write(store, 0, &header);
    open_store(store);
    Ok(())
}
