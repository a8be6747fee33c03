// The row of a reader's current record: its id as the view shows it, and the length of its joined sequence without a
// copy.
ghost use Rattle.rows.specs.Rows.{FullLen, PutRecord, length_in};
ghost use Rattle.std.specs.Prelude.{◌≡◌};

use crate::Room;
use crate::line::put_row;
use reader::{Position, Reader};
use view::{Full, FullError};

// The row of the current record, which stands at a position. Reader, window and table stay three parameters, as in
// view.
pub fn put_record(
    reader: Reader,
    place: Position,
    window: &[u8],
    ends: &[usize],
    out: &mut [u8],
    at: usize,
) -> Result<usize, Room>
    ensures { PutRecord reader place window.now ends.now out.old at result out.new }
{
    let id = view::shown(view::id(reader, window, ends), window);
    let len = joined_len(reader, window, ends);
    put_row(place.line, place.byte.0, id, len, out, at)
}

// The length of a full sequence: that of its part, or the need of refusal 9.
pub fn full_len(full: Result<Full, FullError>) -> usize
    ensures { FullLen full result }
{
    match full {
        Ok(Full::Window(part)) => part.to.saturating_sub(part.from),
        Ok(Full::Scratch(n)) | Err(FullError::Room(n)) => n,
        Err(_) => 0,
    }
}

// The length of the current record's joined sequence: without scratch nothing is copied.
fn joined_len(reader: Reader, window: &[u8], ends: &[usize]) -> usize
    ensures { result ≡ length_in reader window.now ends.now }
{
    full_len(view::full_seq(reader, window, ends, &mut []))
}
