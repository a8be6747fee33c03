// Views of one part: the head, its id and description, the raw sequence, one line.
ghost use Rattle.std.specs.Prelude.{◌≡◌, ◌+◌, ◌<◌, ◌^◌, length, position};
ghost use Rattle.meaning.specs.Parts.{ends_id};
ghost use Rattle.view.specs.View.{between, Of, HeadIn, IdIn, DescIn, SeqIn, LineIn, NumberOfLines, ShownIn};
ghost use Rattle.view.specs.Steps.{HeadTextIs, TrimmedIs, BehindIs};

use crate::{Extent, Record, View, ViewError};

#[tactic(auto, using(crate::proofs::Cases::parts_steps))]
impl<'b, 'e> Record<'b, 'e> {
    // The head: the first line, without `>` and one trailing `\r`.
    pub fn head(self) -> View
        ensures { Of HeadIn self.entry result }
    {
        let head = self.head_text()?;
        Ok(Some(Extent::behind(self.start, head)))
    }

    // The id: the head up to its first space.
    pub fn id(self) -> View
        ensures { Of IdIn self.entry result }
    {
        let head = self.head_text()?;
        let n = space_place(head).unwrap_or(head.len());
        Ok(Some(Extent::behind(self.start, &head[..n])))
    }

    // The description: the head behind that space, or none without a space.
    pub fn desc(self) -> View
        ensures { Of DescIn self.entry result }
    {
        let head = self.head_text()?;
        let Some(n) = space_place(head) else {
            return Ok(None);
        };
        Ok(Some(Extent::behind(self.start + 1 + n, &head[n + 1..])))
    }

    // The raw sequence: from behind the first end to the last, without one final `\r`; empty without lines.
    pub fn seq(self) -> View
        ensures { Of SeqIn self.entry result }
    {
        // The head's end is used, so it has to rise.
        self.head_text()?;
        let first = self.ends[0];
        if self.lines() == 0 {
            return Ok(Some(Extent {
                from: first,
                to: first,
            }));
        }
        self.behind(first, self.ends[self.lines()])
    }

    // Sequence line i, without one trailing `\r`.
    pub fn line(self, i: usize) -> View
        ensures { LineIn self.entry.bytes.now self.entry.start self.entry.ends.now i result }
    {
        if self.ends.is_empty() {
            return Err(ViewError::State);
        }
        if self.lines() <= i {
            return Err(ViewError::NoLine);
        }
        // The end before the line is used too.
        let before = self.ends[i];
        self.trimmed(self.start, before)?;
        self.behind(before, self.ends[i + 1])
    }

    // The number of sequence lines.
    pub fn lines(self) -> usize
        ensures { NumberOfLines self.entry.ends.now result }
    {
        self.ends.len().saturating_sub(1)
    }

    // The head's text.
    fn head_text(self) -> Result<&'b [u8], ViewError>
        ensures { Of HeadTextIs self.entry result }
    {
        let end = self.ends.first().ok_or(ViewError::State)?;
        self.trimmed(self.start, *end)
    }

    // The extent of the trimmed line from behind a place up to an end.
    fn behind(self, place: usize, end: usize) -> View
        ensures { BehindIs self.entry.bytes.now place end result }
    {
        let line = self.trimmed(place, end)?;
        Ok(Some(Extent::behind(place, line)))
    }

    // Its text, where the end is above the place and in the bytes.
    fn trimmed(self, place: usize, end: usize) -> Result<&'b [u8], ViewError>
        ensures { TrimmedIs self.entry.bytes.now place end result }
    {
        if end <= place || self.bytes.len() < end {
            return Err(ViewError::State);
        }
        Ok(scan::trim_cr(&self.bytes[place + 1..end]))
    }
}

impl Extent {
    // That of a text behind the byte at a place.
    pub(crate) fn behind(place: usize, text: &[u8]) -> Extent
        requires { place + 1 + length text.now < 2 ^ 64 }
        ensures { result ≡ record { from = place + 1; to = place + 1 + length text.now } }
    {
        let from = place + 1;
        Extent {
            from,
            to: from + text.len(),
        }
    }
}

// The part itself, empty on a refusal and where there is none.
#[tactic(auto, unfolding(crate::specs::View::shown_in))]
pub fn shown<'a>(view: View, bytes: &'a [u8]) -> &'a [u8]
    ensures { ShownIn view bytes.now result.now }
{
    match view {
        Ok(Some(extent)) => part(bytes, extent),
        Ok(None) | Err(_) => &[],
    }
}

// The bytes of an extent, empty where it does not lie there.
pub(crate) fn part<'a>(bytes: &'a [u8], extent: Extent) -> &'a [u8]
    ensures { result.now ≡ between bytes.now extent.from extent.to }
{
    bytes.get(extent.from..extent.to).unwrap_or(&[])
}

// The place of a head's first space.
fn space_place(head: &[u8]) -> Option<usize>
    ensures { result ≡ position ends_id head.now }
{
    head.iter().position(|b| *b == b' ')
}
