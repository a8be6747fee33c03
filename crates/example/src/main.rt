// The worked example of the README: each record of standard input on one line, its id, a tab and its joined sequence.
#![tactic(auto)]

use growth::Policy;
use reader::{Answer, Reader};
use refusal::Refusal;
use std::error::Error;
use std::io::{ErrorKind, Read};
use std::{fmt, io};
use window::Ask;

// The reader owns no memory. It is lent a window for bytes of the input and a table for the line ends of one record.
fn main(rt: HostRuntime) {
    let mut window = [0u8; 65536];
    let mut ends = [0usize; 4096];
    let mut scratch = [0u8; 65536];
    let mut input = rt.stdin();
    if let Err(stop) = run(&rt, &mut input, &mut window, &mut ends, &mut scratch) {
        let _ = eprintln!(rt; "{stop}");
    }
}

// Setup, and the loop: a read answers a record, an ask for bytes, the end, or a refusal. It has to end, so the turns
// are counted.
fn run(
    rt: &impl Print,
    input: &mut impl Read,
    window: &mut [u8],
    ends: &mut [usize],
    scratch: &mut [u8],
) -> Result<(), Stop> {
    let mut reader = Reader::new(Reader::DEFAULT, Policy::StdPolicy, window, ends)?;
    for _ in 0..u64::MAX {
        let next = reader.next(window, ends);
        reader = next.reader;
        let answer = next.answer;
        if let Answer::Ask(ask) = answer {
            let count = fill(input, ask, window).map_err(Stop::Read)?;
            let reported = reader.report(count);
            reported.answer?;
            reader = reported.reader;
            continue;
        }
        let Answer::Record(_) = answer else {
            return close(answer);
        };
        show(rt, reader, window, ends, scratch).map_err(Stop::Write)?;
    }
    Ok(())
}

// One read of the input into the part of the window that is asked for. Fewer bytes than there is room for are fine; 0
// say that the input has ended.
fn fill(input: &mut impl Read, ask: Ask, window: &mut [u8]) -> io::Result<usize> {
    let behind = window
        .get_mut(ask.place.0..)
        .ok_or(ErrorKind::InvalidInput)?;
    let part = behind.get_mut(..ask.room).ok_or(ErrorKind::InvalidInput)?;
    input.read(part)
}

// The views: a part of the window, or lines joined in the scratch. What is lent is lent to each call anew.
fn show(
    rt: &impl Print,
    reader: Reader,
    window: &[u8],
    ends: &[usize],
    scratch: &mut [u8],
) -> io::Result<()> {
    let id = view::id(reader, window, ends);
    let seq = view::full_seq(reader, window, ends, scratch);
    rt.write_all(view::shown(id, window))?;
    rt.write_all(b"\t")?;
    rt.write_all(view::pick(seq, window, scratch))?;
    rt.write_all(b"\n")
}

// What came instead of a record: the end, or a refusal, of which the line is known.
fn close(answer: Answer) -> Result<(), Stop> {
    match answer {
        Answer::Ask(_) | Answer::Record(_) | Answer::End => Ok(()),
        Answer::Start { line, byte: _ } => Err(Stop::Start(line)),
        Answer::Window(place) => Err(Stop::Window(place.line)),
        Answer::Table(place) => Err(Stop::Table(place.line)),
        Answer::Place => Err(Stop::Refused(5)),
        Answer::State => Err(Stop::Refused(11)),
    }
}

// Why the loop stopped before the end: the input or the output failed, or a refusal, by its line or by its number.
#[derive(Debug, Drop)]
enum Stop {
    Read(io::Error),
    Write(io::Error),
    Start(u64),
    Window(u64),
    Table(u64),
    Refused(u32),
}

impl<E: Refusal> From<E> for Stop {
    fn from(refusal: E) -> Stop {
        Stop::Refused(refusal.number())
    }
}

impl fmt::Display for Stop {
    fn fmt<W: fmt::Write>(&self, f: &mut fmt::Formatter<W>) -> fmt::Result {
        match self {
            Stop::Read(e) => write!(f, "example: read: {e}"),
            Stop::Write(e) => write!(f, "example: write: {e}"),
            Stop::Start(line) => write!(f, "no record begins here: line {line}"),
            Stop::Window(line) => write!(f, "too long for the window: line {line}"),
            Stop::Table(line) => write!(f, "too many lines for the table: line {line}"),
            Stop::Refused(number) => write!(f, "refusal {number}"),
        }
    }
}

impl Error for Stop {}
