// Views of a reader's current record (01, module 5), in the window and the table that are lent to the reader: over the
// filled bytes and the recorded ends. Without a current record refusal 7, in a state that refusal 11 names refusal 11.
// Reader, window and table stay three parameters, since module 5 lends the two anew to each call; `RefRecord` holds
// them.
ghost use Rattle.view.specs.Current.{CurrentRecord, Head, Id, Desc, Seq, Line, LinesOf, FullSeq};

use crate::{Full, FullError, Record, View};
use reader::{Current, Reader, RecordError};

// The current record as it stands in the window.
pub fn current_record<'b, 'e>(
    reader: Reader,
    window: &'b [u8],
    ends: &'e [usize],
) -> Result<Record<'b, 'e>, RecordError>
    ensures { CurrentRecord reader window.now ends.now result }
{
    let Current {
        start,
        filled,
        count,
    } = reader.current(window.len(), ends.len())?;
    Ok(Record {
        bytes: &window[..filled],
        start,
        ends: &ends[..count],
    })
}

// Its head.
pub fn head(reader: Reader, window: &[u8], ends: &[usize]) -> View
    ensures { Head reader window.now ends.now result }
{
    current_record(reader, window, ends)?.head()
}

// Its id.
pub fn id(reader: Reader, window: &[u8], ends: &[usize]) -> View
    ensures { Id reader window.now ends.now result }
{
    current_record(reader, window, ends)?.id()
}

// Its description, or none.
pub fn desc(reader: Reader, window: &[u8], ends: &[usize]) -> View
    ensures { Desc reader window.now ends.now result }
{
    current_record(reader, window, ends)?.desc()
}

// Its raw sequence.
pub fn seq(reader: Reader, window: &[u8], ends: &[usize]) -> View
    ensures { Seq reader window.now ends.now result }
{
    current_record(reader, window, ends)?.seq()
}

// Its sequence line i, or refusal 8.
pub fn line(reader: Reader, window: &[u8], ends: &[usize], i: usize) -> View
    ensures { Line reader window.now ends.now i result }
{
    current_record(reader, window, ends)?.line(i)
}

// The number of its sequence lines, whatever its ends are.
pub fn lines(reader: Reader, window: &[u8], ends: &[usize]) -> Result<usize, RecordError>
    ensures { LinesOf reader window.now ends.now result }
{
    Ok(current_record(reader, window, ends)?.lines())
}

// Its full sequence: a part of the window, or the front of the scratch, or refusal 9.
pub fn full_seq(
    reader: Reader,
    window: &[u8],
    ends: &[usize],
    scratch: &mut [u8],
) -> Result<Full, FullError>
    ensures { FullSeq reader window.now ends.now scratch.old result scratch.new }
{
    current_record(reader, window, ends)?.full_seq(scratch)
}
