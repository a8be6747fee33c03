// The run of a script: each call changes it and prints a line.
use crate::calls::{Call, Field};
use crate::memory::Memory;
use crate::out::Output;
use crate::script::{ROOM, Setup};
use crate::sets::Last;
use reader::{Answer, Position, Reader};
use window::{Ask, InputOffset, WindowOffset};

// What the script began with, its reader, the last ask, the last set, and the memory: of each array a call lends the
// front that it names.
#[derive(Drop)]
pub(crate) struct Run<'a> {
    pub(crate) setup: Setup<'a>,
    pub(crate) reader: Reader,
    pub(crate) ask: Ask,
    pub(crate) last: Last,
    pub(crate) memory: &'a mut Memory,
    pub(crate) room: &'a mut [u8; ROOM],
    pub(crate) out: &'a mut Output,
}

// Before the first read nothing was asked.
pub(crate) const NO_ASK: Ask = Ask {
    place: WindowOffset(0),
    room: 0,
    offset: InputOffset(0),
};

impl Run<'_> {
    pub(crate) fn call(&mut self, call: Call) {
        match call {
            Call::Read => self.read(),
            Call::Report(count) => self.report(count),
            Call::Seek(to) => self.seek(to),
            Call::Position => self.position(),
            Call::ReadSet(sizes) => self.read_set(sizes),
            Call::View(of, part) => self.view(of, part),
            Call::Write(of, writer, room) => self.write(of, writer, room),
            Call::Capacity => self.capacity(),
            Call::Grow(size) => self.grow(size),
            Call::PositionHeld(i) => self.position_held(i),
            Call::WriteFree(free, room) => self.write_free(free, room),
            Call::Alter(field, value) => self.alter(field, value),
            Call::AlterSlot { slot, value } => self.alter_slot(slot, value),
        }
    }

    // An answer's refusals have no error type, since it is one enum: their numbers stand here, and for sets in
    // `filled`.
    fn read(&mut self) {
        let Memory { window, table, .. } = &mut *self.memory;
        let window = self.setup.window.front_mut(window);
        let table = self.setup.table.front_mut(table);
        let next = self.reader.next(window, table);
        self.reader = next.reader;
        match next.answer {
            Answer::Ask(ask) => self.asked(ask),
            Answer::Record(place) => self.record(place),
            Answer::End => self.out.line("end"),
            Answer::Start { line, byte } => self.out.line(format_args!("refused 2 {line} {byte}")),
            Answer::Window(place) => self.out.place("refused 3", place),
            Answer::Table(place) => self.out.place("refused 4", place),
            Answer::Place => self.out.line("refused 5"),
            Answer::State => self.out.line("refused 11"),
        }
    }

    pub(crate) fn asked(&mut self, ask: Ask) {
        self.ask = ask;
        self.out.line(format_args!("ask {} {} {}", ask.place.0, ask.room, ask.offset.0));
    }

    // A record and its sequence lines: all of its ends but the head's.
    fn record(&mut self, place: Position) {
        let lines = self.reader.mark.count.saturating_sub(1);
        self.out.line(format_args!("record {} {} {lines}", place.line, place.byte.0));
    }

    // A report of `count` bytes, which are put into the window first.
    fn report(&mut self, count: usize) {
        self.bring(count);
        let reported = self.reader.report(count);
        self.reader = reported.reader;
        self.out.outcome(reported.answer);
    }

    // Puts the input's bytes from the ask's offset on into the window at its place, zeros past the input's end.
    fn bring(&mut self, count: usize) {
        let window = self.setup.window.front_mut(&mut self.memory.window);
        let Some(behind) = window.get_mut(self.ask.place.0..) else {
            return;
        };
        let most = behind.len().min(self.ask.room).min(count);
        let part = &mut behind[..most];
        part.fill(0);
        let left = self
            .setup
            .input
            .get(self.ask.offset.0 as usize..)
            .unwrap_or(&[]);
        let n = most.min(left.len());
        part[..n].copy_from_slice(&left[..n]);
    }

    fn seek(&mut self, to: Position) {
        let sought = self.reader.seek(to);
        self.reader = sought.reader;
        self.out.outcome(sought.answer);
    }

    fn position(&mut self) {
        match self.reader.position() {
            Ok(Some(place)) => self.out.place("at", place),
            Ok(None) => self.out.line("none"),
            Err(refusal) => self.out.refusal(refusal),
        }
    }

    fn capacity(&mut self) {
        self.out
            .line(format_args!("capacity {}", self.reader.fill.capacity));
    }

    // The size that the policy and the window of the setup grow a size to.
    fn grow(&mut self, size: usize) {
        let fill = self.reader.fill;
        match fill.policy.grow_to(size, fill.lent) {
            Some(larger) => self.out.line(format_args!("grow {larger}")),
            None => self.out.line("none"),
        }
    }

    fn alter(&mut self, field: Field, value: u64) {
        let fill = &mut self.reader.fill;
        let mark = &mut self.reader.mark;
        match field {
            Field::Capacity => fill.capacity = value as usize,
            Field::Filled => fill.filled = value as usize,
            Field::Start => mark.start.0 = value as usize,
            Field::Search => mark.search.0 = value as usize,
            Field::Count => mark.count = value as usize,
            Field::Line => mark.line = value,
            Field::Base => fill.base.0 = value,
            Field::Told => fill.told = value != 0,
            Field::Asking => fill.asking = value != 0,
        }
        self.out.line("altered");
    }

    // A slot that the table does not have is passed over.
    fn alter_slot(&mut self, slot: usize, value: usize) {
        let table = self.setup.table.front_mut(&mut self.memory.table);
        if let Some(end) = table.get_mut(slot) {
            *end = value;
        }
        self.out.line("altered");
    }
}
