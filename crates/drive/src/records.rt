// Views and writers of the current record and of the last set's records, and the free writers. Each goes by the public
// call that a user has: of the reader with window and table, or of the set.
use crate::calls::{Free, Part, Which, Writer};
use crate::run::Run;
use crate::script::{Length, ROOM};
use write::WriteError;

impl Run<'_> {
    pub(crate) fn view(&mut self, of: Which, part: Part) {
        match of {
            Which::Current => self.view_current(part),
            Which::Held(i) => self.view_held(i, part),
        }
    }

    fn view_current(&mut self, part: Part) {
        let memory = &*self.memory;
        let window = self.setup.window.front(&memory.window);
        let ends = self.setup.table.front(&memory.table);
        let reader = self.reader;
        let shown = match part {
            Part::Head => view::head(reader, window, ends),
            Part::Id => view::id(reader, window, ends),
            Part::Desc => view::desc(reader, window, ends),
            Part::Seq => view::seq(reader, window, ends),
            Part::Line(i) => view::line(reader, window, ends, i),
            Part::Full(length) => {
                let scratch = length.front_mut(self.room);
                let full = view::full_seq(reader, window, ends, scratch);
                self.out.full(full, window, scratch);
                return;
            }
        };
        self.out.view(shown, window);
    }

    fn view_held(&mut self, i: usize, part: Part) {
        let held = self.memory.held(self.last);
        let shown = match part {
            Part::Head => held.head(i),
            Part::Id => held.id(i),
            Part::Desc => held.desc(i),
            Part::Seq => held.seq(i),
            Part::Line(n) => held.line(i, n),
            Part::Full(length) => {
                let scratch = length.front_mut(self.room);
                let full = held.full_seq(i, scratch);
                self.out.full(full, held.bytes, scratch);
                return;
            }
        };
        self.out.view(shown, held.bytes);
    }

    pub(crate) fn write(&mut self, of: Which, writer: Writer, length: Length<ROOM>) {
        let memory = &*self.memory;
        let room = length.front_mut(self.room);
        let wrote = match of {
            Which::Current => {
                let window = self.setup.window.front(&memory.window);
                let ends = self.setup.table.front(&memory.table);
                let reader = self.reader;
                match writer {
                    Writer::Write => rewrite::write(reader, window, ends, room),
                    Writer::Wrap(wrap) => rewrite::write_wrap(reader, window, ends, wrap, room),
                    Writer::Unchanged => rewrite::write_unchanged(reader, window, ends, room),
                }
            }
            Which::Held(i) => {
                let held = memory.held(self.last);
                match writer {
                    Writer::Write => held.write(i, room),
                    Writer::Wrap(wrap) => held.write_wrap(i, wrap, room),
                    Writer::Unchanged => held.write_unchanged(i, room),
                }
            }
        };
        self.out.wrote(wrote, room);
    }

    // A free writer's room is filled with `#` first, and what is left of it is printed too.
    pub(crate) fn write_free(&mut self, free: Free, length: Length<ROOM>) {
        let room = length.front_mut(self.room);
        room.fill(b'#');
        let wrote = free.write(room);
        self.out.wrote_free(wrote, room);
    }
}

impl Free<'_> {
    fn write(self, room: &mut [u8]) -> Result<usize, WriteError> {
        match self {
            Free::Head(head) => write::write_head(head, room),
            Free::IdDesc(id, desc) => write::write_id_desc(id, desc, room),
            Free::Seq(seq) => write::write_seq(seq, room),
            Free::WrapSeq(seq, wrap) => write::write_wrap_seq(seq, wrap, room),
            Free::To(head, seq) => write::write_to(head, seq, room),
            Free::Parts(id, desc, seq) => write::write_parts(id, desc, seq, room),
            Free::Wrap(id, desc, seq, wrap) => write::write_wrap(id, desc, seq, wrap, room),
        }
    }
}
