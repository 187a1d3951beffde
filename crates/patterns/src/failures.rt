// What the program says of a call that failed.
use std::io;
use std::io::{Cursor, Write};

// Says on standard error what failed and why, in the system's words without its number.
pub fn fail(rt: &HostRuntime, what: &str, why: io::Error) {
    let mut text = Cursor::new([0u8; 256]);
    let _ = write!(text, "{why}");
    let n = text.position() as usize;
    let said = text.into_inner();
    let _ = match std::str::from_utf8(&said[..n.min(256)]) {
        Ok(all) => match all.split_once(" (os error ") {
            Some((words, _)) => eprintln!(rt; "{what}: {words}"),
            None => eprintln!(rt; "{what}: {all}"),
        },
        Err(_) => eprintln!(rt; "{what}: {why}"),
    };
}
