// Lines in bytes: where one ends, what of it is shown, and the blank ones that lead an input.
ghost use Rattle.std.specs.Prelude.{◌≡◌, ◌+◌, ◌<◌};
ghost use Rattle.scan.specs.Scan.{TrimCr, LineEnd, line_end};
ghost use Rattle.scan.specs.Search.{Lead, blank};

// A line without its trailing `\r`, if it has one: the line itself or the part before that `\r`.
#[tactic(auto, using(crate::proofs::LineLaws::trims))]
pub fn trim_cr(line: &[u8]) -> &[u8]
    ensures { TrimCr line.now result.now }
{
    match line.split_last() {
        Some((b'\r', before)) => before,
        _ => line,
    }
}

// The place of the first `\n` at or behind `from`, or the end of the bytes. Bytes without a `\n` are passed in blocks
// of 32, of eight, then one by one. With the kit's memchr `list` takes 1.05 times as long on records of nine bytes.
pub fn line_end(bytes: &[u8], from: usize) -> usize
    ensures { LineEnd bytes.now from result }
{
    let near = pass::<8>(bytes, pass::<32>(bytes, from));
    pass::<1>(bytes, near).min(bytes.len())
}

// The place behind the blocks of N bytes without a `\n` from a place on. The line's end is less than N bytes ahead.
fn pass<const N: usize>(bytes: &[u8], from: usize) -> usize
    requires { 0 < N }
    ensures same { line_end bytes.now from ≡ line_end bytes.now result }
    ensures near { line_end bytes.now result < result + N }
{
    let stop = bytes.len().saturating_sub(N - 1);
    let mut i = from;
    // `chunks_exact` would have to be counted: the place is the answer.
    while i < stop && !bytes[i..i + N].contains(&b'\n') {
        i += N;
    }
    i
}

// The blank lines from a place on: how many, and where the next line begins. `undecided`: of that line nothing or a
// lone `\r` is there, so that it may yet be blank. It is a flag, for the other fields stand either way.
#[derive(Clone, Copy)]
pub struct Blank {
    pub at: usize,
    pub lines: usize,
    pub undecided: bool,
}

pub fn lead(bytes: &[u8], from: usize) -> Blank
    ensures { Lead bytes.now from result }
{
    let mut at = from;
    let mut lines = 0;
    // By one byte or by two, as the line ends: a `for` has one step.
    while at < bytes.len() {
        let rest = &bytes[at..];
        if rest.starts_with(b"\n") {
            at += 1;
        } else if rest.starts_with(b"\r\n") {
            at += 2;
        } else {
            return Blank {
                at,
                lines,
                undecided: bytes[at..] == [b'\r'],
            };
        }
        lines += 1;
    }
    Blank {
        at,
        lines,
        undecided: true,
    }
}
