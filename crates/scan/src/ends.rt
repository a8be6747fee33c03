// The ends of a record's lines in the filled bytes of a window (01, "The window and its refills").
ghost use Rattle.std.specs.Prelude.{◌≡◌};
ghost use Rattle.scan.specs.Search.{Search, stopped_at};

use crate::line::line_end;

// Why a search stopped: at the next record, at an end that found no slot, or where the filled bytes end.
#[derive(Clone, Copy)]
pub enum Stop {
    Record,
    Full,
    Filled,
}

// Where a search stopped, with how many ends recorded.
#[derive(Clone, Copy)]
pub struct Searched {
    pub at: usize,
    pub count: usize,
    pub stop: Stop,
}

// The ends of lines from `from` on are recorded behind the first `count`, `limit` at most, up to a `\n` behind which
// `mark` stands. A `\n` that is the last byte is not recorded: what follows it is not known. The parameters are those
// of `Search`, one by one, and no two of them go together elsewhere.
pub fn search(
    bytes: &[u8],
    ends: &mut [usize],
    from: usize,
    count: usize,
    limit: usize,
    mark: u8,
) -> Searched
    ensures { Search bytes.now from count limit mark ends.old result ends.new }
{
    let mut at = from;
    let mut count = count;
    // From line end to line end: a `for` has no such steps, and the place and the count are answered wherever it stops.
    while at < bytes.len() {
        let end = line_end(bytes, at);
        let next = end + 1;
        if bytes.len() <= next {
            return Searched {
                at: end,
                count,
                stop: Stop::Filled,
            };
        }
        if limit <= count || ends.len() <= count {
            return Searched {
                at: end,
                count,
                stop: Stop::Full,
            };
        }
        ends[count] = end;
        count += 1;
        at = next;
        if bytes[at] == mark {
            return Searched {
                at,
                count,
                stop: Stop::Record,
            };
        }
    }
    Searched {
        at,
        count,
        stop: Stop::Filled,
    }
}
