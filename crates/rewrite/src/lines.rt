// A record written anew: the head's line, and the sequence lines joined, in one line or cut every `wrap` bytes.
ghost use Rattle.std.specs.Prelude.{◌≡◌, ◌<◌, length};
ghost use Rattle.write.specs.Output.{cut};
ghost use Rattle.write.specs.Put.{Fits, Put};
ghost use Rattle.write.specs.Text.{wrap_seq_iter_text};
ghost use Rattle.view.specs.Trimmed.{lines_left};
ghost use Rattle.rewrite.specs.Rewrite.{WriteIn, WriteWrapIn, WriteWrapSeqIter};
ghost use Rattle.rewrite.specs.Wrap.{Lays, Wraps, WriteLines, head_part, wrap_len};

use crate::RewriteError;
use crate::column::Column;
use view::{Record, TrimmedLines};

// `>`, the head, `\n`, the joined sequence, `\n`: one line is a line wider than any sequence.
pub fn write_in(given: Record, out: &mut [u8]) -> Result<usize, RewriteError>
    ensures { WriteIn given.entry.bytes.now given.entry.start given.entry.ends.now out.old result out.new }
{
    write_wrap_in(given, usize::MAX, out)
}

// `>`, the head, `\n`, and the joined sequence in lines of `wrap` bytes.
pub fn write_wrap_in(given: Record, wrap: usize, out: &mut [u8]) -> Result<usize, RewriteError>
    ensures { WriteWrapIn given.entry.bytes.now given.entry.start given.entry.ends.now wrap out.old result out.new }
{
    let mut lines = given.trimmed_lines().ok_or(RewriteError::State)?;
    let head = lines.next().ok_or(RewriteError::State)?;
    write_lines(Some(head), lines, wrap, out)
}

// The joined sequence alone in lines of `wrap` bytes, one `\n` if it is empty.
pub fn write_wrap_seq_iter(
    given: Record,
    wrap: usize,
    out: &mut [u8],
) -> Result<usize, RewriteError>
    ensures { WriteWrapSeqIter given.entry.bytes.now given.entry.start given.entry.ends.now wrap
        out.old result out.new }
{
    let mut lines = given.trimmed_lines().ok_or(RewriteError::State)?;
    lines.next().ok_or(RewriteError::State)?;
    write_lines(None, lines, wrap, out)
}

// The head's line, where there is a head, and the lines joined and cut: refusal 10, 9, or the text.
fn write_lines(
    head: Option<&[u8]>,
    lines: TrimmedLines,
    wrap: usize,
    out: &mut [u8],
) -> Result<usize, RewriteError>
    ensures { WriteLines head.entry (lines_left lines.entry) wrap out.old result out.new }
{
    if wrap == 0 {
        return Err(RewriteError::Wrap);
    }
    let need = head_len(head).saturating_add(wrap_len(lines.joined_len(), wrap));
    if out.len() < need {
        return Err(RewriteError::Room(need));
    }
    let at = put_head(head, out);
    let mut column = Column {
        out,
        wrap,
        at,
        col: 0,
    };
    put_lines(lines, &mut column);
    Ok(column.at)
}

// The length of the head's line, where there is a head.
fn head_len(head: Option<&[u8]>) -> usize
    ensures { result ≡ length (head_part head.entry) }
{
    head.map_or(0, |head| head.len() + 2)
}

// The length of `n` joined bytes in lines of `wrap` bytes, of which there is one at least. The width is no
// NonZeroUsize, as in write.
fn wrap_len(n: usize, wrap: usize) -> usize
    requires { 0 < wrap }
    ensures { result ≡ cut (wrap_len wrap n) }
{
    n.saturating_add(n.div_ceil(wrap).max(1))
}

// The head's line at the front, where there is a head. Answers the place behind it.
fn put_head(head: Option<&[u8]>, out: &mut [u8]) -> usize
    requires { Fits 0 (head_part head) out.old }
    ensures { Put 0 (head_part head.entry) out.old result out.new }
{
    match head {
        Some(head) => write::write_head(head, out).unwrap(),
        None => 0,
    }
}

// The lines joined, with a `\n` at each cut and behind the last line, and one if there is nothing.
fn put_lines(lines: TrimmedLines, column: &mut Column)
    requires { Wraps (lines_left lines) column.old }
    ensures { Lays (wrap_seq_iter_text column.old.wrap (lines_left lines.entry)) 0 column.old column.new }
{
    let from = column.at;
    for line in lines {
        column.put_line(line);
    }
    if column.col != 0 || column.at == from {
        column.end_line();
    }
}
