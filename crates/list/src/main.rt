// Lists the records of standard input (01, module 10): a row for each record, then `end` or `refused N`. What is
// written is made by `rows`; here asks are served, and the output goes through a buffer.
#![tactic(auto)]

mod failure;
mod input;
mod output;

use failure::Failure;
use growth::Policy;
use input::bring;
use output::{LENGTH, Output};
use reader::{Answer, Position, Reader};
use rows::{put_last, put_record};
use std::io::Read;

fn main(rt: HostRuntime) {
    let mut window = [0u8; 65536];
    let mut ends = [0usize; 4096];
    let mut out = Output {
        buffer: [0; LENGTH],
        at: 0,
    };
    let Ok(reader) = Reader::new(Reader::DEFAULT, Policy::StdPolicy, &window, &ends) else {
        let _ = eprintln!(rt; "list: the setup was refused");
        return;
    };
    let mut input = rt.stdin();
    if let Err(e) = serve(&rt, &mut input, reader, &mut window, &mut ends, &mut out) {
        tell(&rt, Err(e));
        tell(&rt, out.flush(&rt));
    }
}

// Reads to the first answer that is no record. The turns are counted, so that the loop ends; no run uses them up.
// Window and table are lent anew to each call, so they stay parameters.
fn serve(
    rt: &(impl Print + Eprint),
    input: &mut impl Read,
    first: Reader,
    window: &mut [u8],
    ends: &mut [usize],
    out: &mut Output,
) -> Result<(), Failure> {
    let mut reader = first;
    for _ in 0..u64::MAX {
        let next = reader.next(window, ends);
        reader = next.reader;
        let answer = next.answer;
        if let Answer::Ask(ask) = answer {
            reader = bring(input, reader, ask, window)?;
            continue;
        }
        let Answer::Record(place) = answer else {
            finish(rt, answer, out);
            return Ok(());
        };
        out.keep(
            rt,
            |out, at| put_record(reader, place, window, ends, out, at),
        )?;
    }
    Ok(())
}

// The last line, behind all rows; a refusal's place goes to standard error.
fn finish(rt: &(impl Print + Eprint), answer: Answer, out: &mut Output) {
    tell(rt, close(rt, answer, out));
    explain(rt, answer);
}

fn close(rt: &impl Print, answer: Answer, out: &mut Output) -> Result<(), Failure> {
    out.keep(rt, |out, at| put_last(answer, out, at))?;
    out.flush(rt)
}

fn tell(rt: &impl Eprint, outcome: Result<(), Failure>) {
    if let Err(e) = outcome {
        let _ = eprintln!(rt; "list: {e}");
    }
}

// Where a refusal stands, and why.
fn explain(rt: &impl Eprint, answer: Answer) {
    match answer {
        Answer::Ask(_) | Answer::Record(_) | Answer::End => {}
        Answer::Start { line, byte } => {
            let _ = eprintln!(rt;
                "list: line {line}: the first record must begin with `>`, and not with byte {byte}"
            );
        }
        Answer::Window(place) => explain_at(rt, place, "the record is longer than the window"),
        Answer::Table(place) => explain_at(rt, place, "the record has more lines than the table"),
        Answer::Place => {
            let _ = eprintln!(rt; "list: no record at the place sought");
        }
        Answer::State => {
            let _ = eprintln!(rt; "list: the reader's state is not one of its own");
        }
    }
}

fn explain_at(rt: &impl Eprint, place: Position, text: &str) {
    let _ = eprintln!(rt; "list: line {}, byte {}: {text}", place.line, place.byte.0);
}
