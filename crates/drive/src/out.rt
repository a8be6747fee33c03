// Buffered output: lines are kept in a buffer, which is written when it is full, and at the end.
ghost use Rattle.std.specs.Prelude.{◌≡◌, ◌≤◌};

use reader::Position;
use refusal::Refusal;
use std::fmt;
use std::fmt::{Display, Write};
use std::io::Stdout;
use view::{Full, FullError, View};

// How much is kept.
const LENGTH: usize = 65536;

const DIGITS: &[u8; 16] = b"0123456789abcdef";

// A write that fails is passed over, and the program goes on.
#[derive(Drop)]
pub(crate) struct Output {
    buffer: [u8; LENGTH],
    at: usize,
    stdout: Stdout,
    ghost inside: { at ≤ 65536 },
}

impl Output {
    pub(crate) fn new(stdout: Stdout) -> Output {
        Output {
            buffer: [0; LENGTH],
            at: 0,
            stdout,
        }
    }

    // A text, as a line.
    pub(crate) fn line(&mut self, text: impl Display + Drop) {
        let _ = self.writeln(text);
    }

    // A refusal, by its number; the need stands behind 9.
    pub(crate) fn refusal(&mut self, refusal: impl Refusal) {
        match refusal.number() {
            9 => self.line(format_args!("refused 9 {}", refusal.need())),
            number => self.line(format_args!("refused {number}")),
        }
    }

    // What is done or refused.
    pub(crate) fn outcome(&mut self, outcome: Result<(), impl Refusal>) {
        match outcome {
            Ok(()) => self.line("ok"),
            Err(refusal) => self.refusal(refusal),
        }
    }

    // What a writer answers, of which the room holds the text.
    pub(crate) fn wrote(&mut self, length: Result<usize, impl Refusal>, room: &[u8]) {
        match length {
            Ok(n) => self.parts("wrote", &[room.get(..n).unwrap_or(room)]),
            Err(refusal) => self.refusal(refusal),
        }
    }

    // The same of a free writer, with what is left of the room too.
    pub(crate) fn wrote_free(&mut self, length: Result<usize, impl Refusal>, room: &[u8]) {
        match length {
            Ok(n) => {
                let (text, left) = room.split_at_checked(n).unwrap_or((room, &[]));
                self.parts("wrote", &[text, left]);
            }
            Err(refusal) => self.refusal(refusal),
        }
    }

    // What a view shows.
    pub(crate) fn view(&mut self, view: View, bytes: &[u8]) {
        match view {
            Ok(Some(_)) => self.parts("part", &[view::shown(view, bytes)]),
            Ok(None) => self.line("none"),
            Err(refusal) => self.refusal(refusal),
        }
    }

    // A full sequence: the part of the bytes or of the scratch that it is.
    pub(crate) fn full(&mut self, full: Result<Full, FullError>, bytes: &[u8], scratch: &[u8]) {
        let picked = view::pick(full, bytes, scratch);
        match full {
            Ok(Full::Window(_)) => self.parts("window", &[picked]),
            Ok(Full::Scratch(_)) => self.parts("scratch", &[picked]),
            Err(refusal) => self.refusal(refusal),
        }
    }

    // A word and a record's place, as a line.
    pub(crate) fn place(&mut self, word: &str, place: Position) {
        self.line(format_args!("{word} {} {}", place.line, place.byte.0));
    }

    // Writes what is kept.
    pub(crate) fn flush(&mut self)
        ensures { self.new.at ≡ 0 }
    {
        let _ = self.stdout.write_all(&self.buffer[..self.at]);
        self.at = 0;
    }

    // A word and parts in hex, as a line. The digits go straight into the buffer: `{:02x}` costs several times as much.
    pub(crate) fn parts(&mut self, word: &str, parts: &[&[u8]]) {
        self.text(word.as_bytes());
        for part in parts {
            self.put(b' ');
            self.hex(part);
        }
        self.put(b'\n');
    }

    // `-` for none.
    fn hex(&mut self, bytes: &[u8]) {
        if bytes.is_empty() {
            self.put(b'-');
        }
        for byte in bytes {
            let high = DIGITS[(*byte / 16) as usize];
            let low = DIGITS[(*byte % 16) as usize];
            self.text(&[high, low]);
        }
    }

    // Keeps a text: as one copy where there is room for it, else byte by byte. A byte alone costs less without one.
    fn text(&mut self, text: &[u8]) {
        let end = self.at + text.len();
        if 1 < text.len()
            && let Some(part) = self.buffer.get_mut(self.at..end)
        {
            part.copy_from_slice(text);
            self.at = end;
            return;
        }
        for byte in text {
            self.put(*byte);
        }
    }

    // Keeps one byte more.
    fn put(&mut self, byte: u8) {
        if self.at == self.buffer.len() {
            self.flush();
        }
        self.buffer[self.at] = byte;
        self.at += 1;
    }
}

impl Write for Output {
    fn write_str(&mut self, text: &str) -> fmt::Result {
        self.text(text.as_bytes());
        Ok(())
    }
}
