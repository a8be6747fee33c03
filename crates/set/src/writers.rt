// Writers of a set's record by its number (01, module 6), from the bytes and the two tables that the set was given:
// those of the filled bytes and of the record's own ends. A number not below the set's count is refused with 7, a set
// that does not lie in the slices with 11; the output then stays as it is.
ghost use Rattle.set.specs.Views.{Of, Write, WriteWrap, WriteUnchanged};

use crate::views::SetRef;
use rewrite::{RewriteError, write_in, write_unchanged_in, write_wrap_in};

impl<'a> SetRef<'a> {
    // `>`, its head, `\n`, its joined sequence, `\n`.
    pub fn write(self, i: usize, out: &mut [u8]) -> Result<usize, RewriteError>
        ensures { Of Write self.entry i out.old result out.new }
    {
        write_in(self.record(i)?, out)
    }

    // The same with the sequence cut every `wrap` bytes, or refusal 10.
    pub fn write_wrap(self, i: usize, wrap: usize, out: &mut [u8]) -> Result<usize, RewriteError>
        ensures { Of WriteWrap self.entry i wrap out.old result out.new }
    {
        write_wrap_in(self.record(i)?, wrap, out)
    }

    // What was read, from `>` to the last end, and `\n` unless it ends in one.
    pub fn write_unchanged(self, i: usize, out: &mut [u8]) -> Result<usize, RewriteError>
        ensures { Of WriteUnchanged self.entry i out.old result out.new }
    {
        write_unchanged_in(self.record(i)?, out)
    }
}
