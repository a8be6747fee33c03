// Serving an ask: one read of standard input into the room that is asked for, and the report.
use crate::failure::Failure;
use reader::Reader;
use std::io;
use std::io::{ErrorKind, Read};
use window::Ask;

pub(crate) fn bring(
    input: &mut impl Read,
    reader: Reader,
    ask: Ask,
    window: &mut [u8],
) -> Result<Reader, Failure> {
    let count = read_asked(input, ask, window).map_err(Failure::Read)?;
    let reported = reader.report(count);
    reported.answer.map_err(|_| Failure::Bytes)?;
    Ok(reported.reader)
}

// One read into the part of the window that is asked for. The example has its own, since it is whole in one file.
fn read_asked(input: &mut impl Read, ask: Ask, window: &mut [u8]) -> io::Result<usize> {
    let behind = window
        .get_mut(ask.place.0..)
        .ok_or(ErrorKind::InvalidInput)?;
    let part = behind.get_mut(..ask.room).ok_or(ErrorKind::InvalidInput)?;
    read(input, part)
}

// One read, tried again when a signal interrupts it.
fn read(input: &mut impl Read, part: &mut [u8]) -> io::Result<usize> {
    for _ in 0..u64::MAX {
        match input.read(part) {
            Err(e) if e.kind() == ErrorKind::Interrupted => {}
            answer => return answer,
        }
    }
    Err(io::Error::from(ErrorKind::Interrupted))
}
