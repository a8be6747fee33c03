// One set call (01, module 6, refusals 11 and 12): the read of the first record, then those behind it that are whole in
// the window and fit the set's tables, then the copy of the filled bytes.
ghost use Rattle.std.specs.Prelude.{◌≡◌};
ghost use Rattle.reader.specs.Read as read;
ghost use Rattle.reader.specs.Read.{does};
ghost use Rattle.set.specs.Read.{called, emptied, pairs, collected_in, SetIs};

use crate::copies::copy_front;
use crate::gather::Tables;
use crate::state::{Filled, NextSet, Set};
use reader::{Answer, Next, Reader};

// The records that are whole in the window, from the current place on, as a set: at least one, or what stands in the
// way.
// The set's slices stay three parameters, as the caller lends them: a struct of them would be made for `collect` alone.
#[tactic(auto, unfolding(crate::specs::Read::set_of, crate::specs::Set::sound))]
pub fn next_set(
    reader: Reader,
    window: &mut [u8],
    table: &mut [usize],
    set: Set,
    bytes: &mut [u8],
    marks: &mut [usize],
    ends: &mut [usize],
) -> NextSet
    ensures { SetIs set bytes.old marks.old ends.old reader window.old table.old
        result window.new table.new bytes.new marks.new ends.new }
{
    if !reader.is_lent(window.len(), table.len()) || !set.is_sound(bytes.len(), marks.len()) {
        return refuse_state(reader, set);
    }
    if bytes.len() < window.len() {
        return leave(reader, set, Filled::Room);
    }
    let Next { reader, answer } = reader.next(window, table);
    match answer {
        Answer::Ask(ask) => leave(reader, set, Filled::Ask(ask)),
        Answer::Record(_) => collect(reader, window, table, set, bytes, marks, ends),
        Answer::End => leave(reader, set, Filled::End),
        Answer::Start { line, byte } => leave(reader, set, Filled::Start { line, byte }),
        Answer::Window(place) => leave(reader, set, Filled::Window(place)),
        Answer::Table(place) => leave(reader, set, Filled::Table(place)),
        Answer::Place => leave(reader, set, Filled::Place),
        Answer::State => refuse_state(reader, set),
    }
}

// Refusal 11: nothing changes, the set's count neither.
fn refuse_state(reader: Reader, set: Set) -> NextSet
    ensures { result ≡ record { reader = reader; set = set; answer = Filled.State } }
{
    NextSet {
        reader,
        set,
        answer: Filled::State,
    }
}

// An ask, the end or a refusal: the set is untouched, with count 0.
fn leave(reader: Reader, set: Set, answer: Filled) -> NextSet
    ensures { result ≡ record { reader = reader; set = emptied set; answer = answer } }
{
    NextSet {
        reader,
        set: Set { count: 0, ..set },
        answer,
    }
}

// The first record is current: it and those behind it that fit go into the set, or it is found again by the next call.
#[tactic(auto, using(crate::proofs::Gathering::collected))]
fn collect(
    first: Reader,
    window: &[u8],
    table: &mut [usize],
    set: Set,
    bytes: &mut [u8],
    marks: &mut [usize],
    ends: &mut [usize],
) -> NextSet
    ensures { (s : read.Said) → called result window.now table.new bytes.new marks.new ends.new
        ≡ collected_in set bytes.old marks.old ends.old (pairs marks.old) (does s first window.now table.old) }
{
    let mut tables = Tables {
        marks,
        ends,
        count: 0,
        used: 0,
    };
    if !tables.put(first, table) {
        return leave(first.put_back(), set, Filled::Room);
    }
    let reader = tables.gather(first, window, table);
    let count = tables.count;
    let filled = first.fill.filled;
    copy_front(window, filled, bytes, 0);
    NextSet {
        reader,
        set: Set {
            filled,
            count,
            line: first.mark.line,
            base: first.fill.base,
        },
        answer: Filled::Records { count, filled },
    }
}
