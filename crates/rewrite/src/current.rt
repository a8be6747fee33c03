// Writers of a reader's current record (01, module 5), from the window and the table that are lent to the reader: over
// the filled bytes and the recorded ends. Without a current record refusal 7, in a state that refusal 11 names refusal
// 11; the output then stays as it is. Reader, window and table stay three parameters, as in view.
ghost use Rattle.rewrite.specs.Current.{Write, WriteWrap, WriteUnchanged};

use crate::{RewriteError, write_in, write_unchanged_in, write_wrap_in};
use reader::Reader;
use view::current_record;

// `>`, its head, `\n`, its joined sequence, `\n`.
pub fn write(
    reader: Reader,
    window: &[u8],
    ends: &[usize],
    out: &mut [u8],
) -> Result<usize, RewriteError>
    ensures { Write reader window.now ends.now out.old result out.new }
{
    write_in(current_record(reader, window, ends)?, out)
}

// The same with the sequence in lines of `wrap` bytes.
pub fn write_wrap(
    reader: Reader,
    window: &[u8],
    ends: &[usize],
    wrap: usize,
    out: &mut [u8],
) -> Result<usize, RewriteError>
    ensures { WriteWrap reader window.now ends.now wrap out.old result out.new }
{
    write_wrap_in(current_record(reader, window, ends)?, wrap, out)
}

// The record as it stands, up to its last end.
pub fn write_unchanged(
    reader: Reader,
    window: &[u8],
    ends: &[usize],
    out: &mut [u8],
) -> Result<usize, RewriteError>
    ensures { WriteUnchanged reader window.now ends.now out.old result out.new }
{
    write_unchanged_in(current_record(reader, window, ends)?, out)
}
