// The writers of a record that stands in bytes, given by the place of its `>` and its line ends, the head's end first.
// They answer as the other writers do, and besides 11 where an end that they use is not rising between `start` and the
// bytes' end, or there is none. A record comes as its three parts, since C calls them so.
ghost use Rattle.edge.specs.Edge.{WriteUnchangedIs, WriteWrapSeqIterIs};

use crate::tell::tell;
use view::Record;

pub fn larizemba_write_wrap_seq_iter(
    bytes: &[u8],
    start: usize,
    ends: &[usize],
    wrap: usize,
    len: &mut usize,
    out: &mut [u8],
) -> u32
    ensures { WriteWrapSeqIterIs bytes.now start ends.now wrap out.old result len.new out.new }
{
    let record = Record { bytes, start, ends };
    tell(rewrite::write_wrap_seq_iter(record, wrap, out), len)
}

pub fn larizemba_write_unchanged(
    bytes: &[u8],
    start: usize,
    ends: &[usize],
    len: &mut usize,
    out: &mut [u8],
) -> u32
    ensures { WriteUnchangedIs bytes.now start ends.now out.old result len.new out.new }
{
    let record = Record { bytes, start, ends };
    tell(rewrite::write_unchanged_in(record, out), len)
}
