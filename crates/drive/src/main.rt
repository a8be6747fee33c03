// Runs scripted readers: reads scripts on standard input, and prints a line for each answer. docs/DRIVE.md lays down
// what a script is.
#![tactic(auto)]

mod calls;
mod memory;
mod out;
mod records;
mod run;
mod script;
mod sets;

use memory::Memory;
use out::Output;
use reader::Reader;
use run::{NO_ASK, Run};
use script::{BadScript, ROOM, Script};
use sets::Last;
use std::io::{Read, Stdin};

// All scripts have at most 1 MiB; one byte more shows that there is more.
const MOST: usize = 1048576;

const MEMORY: usize = 1048577;

fn main(rt: HostRuntime) {
    let mut memory = [0u8; MEMORY];
    let scripts = read_all(rt.stdin(), &mut memory);
    let mut out = Output::new(rt.stdout());
    if let Err(e) = run_all(scripts, &mut out) {
        out.line(e);
    }
    out.flush();
}

// `main` does not call `read_full` itself, since the check of the answer's bounds (`slice_bounds-read_full-end`) runs
// out of stack where the array's bytes are written.
fn read_all(from: Stdin, memory: &mut [u8; MEMORY]) -> &[u8] {
    read_full(from, memory)
}

// Reads until the memory is full, the input ends or a read fails; answers what is read. How many reads there are is
// known from them alone.
fn read_full<'a>(mut from: Stdin, memory: &'a mut [u8]) -> &'a [u8] {
    let mut done = 0;
    while let Ok(n @ 1..) = from.read(&mut memory[done..]) {
        done += n;
    }
    &memory[..done]
}

// All scripts, one after the other; they have at most 1 MiB. A script takes a byte at least, so that the turns are
// counted by the bytes.
fn run_all(bytes: &[u8], out: &mut Output) -> Result<(), BadScript> {
    if MOST < bytes.len() {
        return Err(BadScript);
    }
    let mut memory = Memory::new();
    let mut room = [0; ROOM];
    let mut script = Script { rest: bytes };
    for _ in 0..bytes.len() {
        if script.rest.is_empty() {
            break;
        }
        run_one(&mut script, &mut memory, &mut room, out)?;
    }
    Ok(())
}

// One script: its window and its table begin as zeros. The calls of one whose setup is refused are passed over.
fn run_one(
    script: &mut Script,
    memory: &mut Memory,
    room: &mut [u8; ROOM],
    out: &mut Output,
) -> Result<(), BadScript> {
    let setup = script.setup()?;
    setup.window.front_mut(&mut memory.window).fill(0);
    setup.table.front_mut(&mut memory.table).fill(0);
    let lent = setup.window.front(&memory.window);
    let slots = setup.table.front(&memory.table);
    match Reader::new(setup.capacity, setup.policy, lent, slots) {
        Ok(reader) => {
            out.line("made");
            let mut run = Run {
                setup,
                reader,
                ask: NO_ASK,
                last: Last::none(),
                memory,
                room,
                out,
            };
            for _ in 0..setup.calls {
                run.call(script.call()?);
            }
        }
        Err(refusal) => {
            out.refusal(refusal);
            for _ in 0..setup.calls {
                let _ = script.call()?;
            }
        }
    }
    out.line("done");
    Ok(())
}
