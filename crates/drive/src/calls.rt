// The calls of a script, each with its operands. The numbers of calls and kinds are those of docs/DRIVE.md.
use crate::script::{BadScript, ENDS, Length, MARKS, RECORDS, ROOM, Script};
use reader::Position;
use window::InputOffset;

// The numbers of `Report`, `Grow` and `PositionHeld` are a count of bytes, a size, and a record of the last set.
#[derive(Clone, Copy)]
pub(crate) enum Call<'a> {
    Read,
    Report(usize),
    Seek(Position),
    Position,
    ReadSet(Sizes),
    View(Which, Part),
    Write(Which, Writer, Length<ROOM>),
    Capacity,
    Grow(usize),
    PositionHeld(usize),
    WriteFree(Free<'a>, Length<ROOM>),
    Alter(Field, u64),
    AlterSlot { slot: usize, value: usize },
}

// Which record is shown or written: the reader's current one, or one of the last set.
#[derive(Clone, Copy)]
pub(crate) enum Which {
    Current,
    Held(usize),
}

// What is shown of a record: a line by its number, the full sequence with so much scratch.
#[derive(Clone, Copy)]
pub(crate) enum Part {
    Head,
    Id,
    Desc,
    Seq,
    Line(usize),
    Full(Length<ROOM>),
}

// How a record is written: as `write` does, with a width, or unchanged.
#[derive(Clone, Copy)]
pub(crate) enum Writer {
    Write,
    Wrap(usize),
    Unchanged,
}

// A free writer's parts: a head, or an id and a description or none; a sequence; and the width.
#[derive(Clone, Copy)]
pub(crate) enum Free<'a> {
    Head(&'a [u8]),
    IdDesc(&'a [u8], Option<&'a [u8]>),
    Seq(&'a [u8]),
    WrapSeq(&'a [u8], usize),
    To(&'a [u8], &'a [u8]),
    Parts(&'a [u8], Option<&'a [u8]>, &'a [u8]),
    Wrap(&'a [u8], Option<&'a [u8]>, &'a [u8], usize),
}

// How much a set's read is lent: bytes, two marks for each record, and ends.
#[derive(Clone, Copy)]
pub(crate) struct Sizes {
    pub(crate) bytes: Length<ROOM>,
    pub(crate) marks: Length<MARKS>,
    pub(crate) ends: Length<ENDS>,
}

// A number of the reader that is altered.
#[derive(Clone, Copy)]
pub(crate) enum Field {
    Capacity,
    Filled,
    Start,
    Search,
    Count,
    Line,
    Base,
    Told,
    Asking,
}

impl TryFrom<u8> for Field {
    type Error = BadScript;

    fn try_from(number: u8) -> Result<Field, BadScript> {
        match number {
            0 => Ok(Field::Capacity),
            1 => Ok(Field::Filled),
            2 => Ok(Field::Start),
            3 => Ok(Field::Search),
            4 => Ok(Field::Count),
            5 => Ok(Field::Line),
            6 => Ok(Field::Base),
            7 => Ok(Field::Told),
            8 => Ok(Field::Asking),
            _ => Err(BadScript),
        }
    }
}

impl<'a> Script<'a> {
    pub(crate) fn call(&mut self) -> Result<Call<'a>, BadScript> {
        match self.u8()? {
            1 => Ok(Call::Read),
            2 => Ok(Call::Report(self.size()?)),
            3 => Ok(Call::Seek(self.position()?)),
            4 => Ok(Call::Position),
            5 => Ok(Call::ReadSet(self.sizes()?)),
            6 => self.view(Which::Current),
            7 => self.writer(Which::Current),
            8 => {
                let of = Which::Held(self.count()?);
                self.view(of)
            }
            9 => {
                let of = Which::Held(self.count()?);
                self.writer(of)
            }
            10 => Ok(Call::Capacity),
            11 => Ok(Call::Grow(self.size()?)),
            12 => Ok(Call::PositionHeld(self.count()?)),
            13 => self.free(),
            14 => Ok(Call::Alter(Field::try_from(self.u8()?)?, self.u64()?)),
            15 => {
                let slot = self.count()?;
                let value = self.size()?;
                Ok(Call::AlterSlot { slot, value })
            }
            _ => Err(BadScript),
        }
    }

    fn position(&mut self) -> Result<Position, BadScript> {
        let line = self.u64()?;
        let byte = InputOffset(self.u64()?);
        Ok(Position { line, byte })
    }

    fn sizes(&mut self) -> Result<Sizes, BadScript> {
        let bytes = self.length()?;
        let records: Length<RECORDS> = self.length()?;
        let marks = Length { n: 2 * records.n };
        let ends = self.length()?;
        Ok(Sizes { bytes, marks, ends })
    }

    // The line's number and the scratch's length stand there for every view.
    fn view(&mut self, of: Which) -> Result<Call<'a>, BadScript> {
        let kind = self.u8()?;
        let line = self.size()?;
        let scratch = self.length()?;
        let part = match kind {
            0 => Part::Head,
            1 => Part::Id,
            2 => Part::Desc,
            3 => Part::Seq,
            4 => Part::Line(line),
            5 => Part::Full(scratch),
            _ => return Err(BadScript),
        };
        Ok(Call::View(of, part))
    }

    fn writer(&mut self, of: Which) -> Result<Call<'a>, BadScript> {
        let kind = self.u8()?;
        let wrap = self.size()?;
        let room = self.length()?;
        let writer = match kind {
            0 => Writer::Write,
            1 => Writer::Wrap(wrap),
            2 => Writer::Unchanged,
            _ => return Err(BadScript),
        };
        Ok(Call::Write(of, writer, room))
    }

    // The lengths of three parts, which stand behind the other operands.
    fn free(&mut self) -> Result<Call<'a>, BadScript> {
        let kind = self.u8()?;
        let first = self.count()?;
        let second = self.count()?;
        let third = self.count()?;
        let wrap = self.size()?;
        let room = self.length()?;
        let id = self.bytes(first)?;
        let desc = self.bytes(second)?;
        let seq = self.bytes(third)?;
        let free = match kind {
            0 => Free::Head(id),
            1 => Free::IdDesc(id, Some(desc)),
            2 => Free::IdDesc(id, None),
            3 => Free::Seq(seq),
            4 => Free::WrapSeq(seq, wrap),
            5 => Free::To(id, seq),
            6 => Free::Parts(id, Some(desc), seq),
            7 => Free::Parts(id, None, seq),
            8 => Free::Wrap(id, Some(desc), seq, wrap),
            9 => Free::Wrap(id, None, seq, wrap),
            _ => return Err(BadScript),
        };
        Ok(Call::WriteFree(free, room))
    }
}
