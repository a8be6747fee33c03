// The trimmed lines of a record one after the other, the head's first: what the full sequence and the writers go over.
ghost use Rattle.std.specs.Prelude.{IsTrue, length};
ghost use Rattle.view.specs.Rising.{rising};

use crate::Record;

// The lines that end at the ends left, the first from behind a place on, each without one trailing `\r`.
#[derive(Clone, Copy, Debug)]
pub struct TrimmedLines<'b, 'e> {
    bytes: &'b [u8],
    place: usize,
    ends: &'e [usize],
    ghost in_order: { IsTrue (rising place ends.now (length bytes.now)) },
}

impl<'b, 'e> Record<'b, 'e> {
    ghost use Rattle.view.specs.View.{Of};
    ghost use Rattle.view.specs.Trimmed.{TrimmedLinesIs};

    // Its lines, the head first, or none where its ends don't rise.
    pub fn trimmed_lines(self) -> Option<TrimmedLines<'b, 'e>>
        ensures { Of TrimmedLinesIs self.entry result }
    {
        // The same test as reader's, which is private there: it would be one promise more for these six lines.
        let mut lo = self.start;
        for &end in self.ends {
            if end <= lo || self.bytes.len() < end {
                return None;
            }
            lo = end;
        }
        Some(TrimmedLines {
            bytes: self.bytes,
            place: self.start,
            ends: self.ends,
        })
    }
}

impl<'b, 'e> TrimmedLines<'b, 'e> {
    ghost use Rattle.std.specs.Prelude.{◌≡◌};
    ghost use Rattle.meaning.specs.Parts.{joined};
    ghost use Rattle.view.specs.Trimmed.{lines_left};

    // The length of the lines together.
    pub fn joined_len(self) -> usize
        ensures { result ≡ length (joined (lines_left self.entry)) }
    {
        self.map(|line| line.len()).sum()
    }
}

impl<'b, 'e> Iterator for TrimmedLines<'b, 'e> {
    ghost use Rattle.std.specs.Iterator.{YieldsFirstRef, item_count};
    ghost use Rattle.view.specs.Trimmed.{lines_left};

    type Item = &'b [u8];

    ghost next_gives = { YieldsFirstRef lines_left };

    ghost remaining = { item_count lines_left };

    fn next(&mut self) -> Option<&'b [u8]> {
        let (&end, others) = self.ends.split_first()?;
        let line = scan::trim_cr(&self.bytes[self.place + 1..end]);
        self.place = end;
        self.ends = others;
        Some(line)
    }
}
