// Filling the front of the output with the parts of a text. Each refusal comes before the first byte, so that it
// leaves the output as it is.
ghost use Rattle.std.specs.Prelude.{◌≡◌, ◌+◌, ◌≤◌, ◌<◌, ◌++◌, min, length};
ghost use Rattle.write.specs.Need.{line_count};
ghost use Rattle.write.specs.Put.{Fits, Put, text_of};
ghost use Rattle.write.specs.Text.{wrap_seq_text};
ghost use Rattle.write.specs.Output.{cut, left, filled, wrapped};

use super::WriteError;

// The parts one behind the other: an empty sequence has no lines, whatever their width.
pub(crate) fn fill(parts: &[&[u8]], out: &mut [u8]) -> Result<usize, WriteError>
    ensures { left result out.new ≡ filled (text_of parts.now) out.old }
{
    fill_lines(parts, b"", 1, out)
}

// The parts, and behind them the sequence in lines of `wrap` bytes.
pub(crate) fn fill_lines(
    parts: &[&[u8]],
    seq: &[u8],
    wrap: usize,
    out: &mut [u8],
) -> Result<usize, WriteError>
    ensures { left result out.new ≡ wrapped wrap (text_of parts.now ++ wrap_seq_text wrap seq.now) out.old }
{
    if wrap == 0 {
        return Err(WriteError::Wrap);
    }
    let need = parts_len(parts).saturating_add(lines_len(seq.len(), wrap));
    if out.len() < need {
        return Err(WriteError::Room(need));
    }
    let at = put_parts(parts, out, 0);
    Ok(put_lines(seq, wrap, out, at))
}

// The length of the parts, or 2^64 - 1 if it is more.
fn parts_len(parts: &[&[u8]]) -> usize
    ensures { result ≡ cut (length (text_of parts.now)) }
{
    let mut len: usize = 0;
    for part in parts {
        len = len.saturating_add(part.len());
    }
    len
}

// The length of a sequence in lines of `wrap` bytes, or 2^64 - 1 if it is more: each line has a `\n`. The width is no
// NonZeroUsize: it would be made at the one test, and taken apart where it is used.
fn lines_len(seq: usize, wrap: usize) -> usize
    requires { 0 < wrap }
    ensures { result ≡ cut (seq + line_count wrap seq) }
{
    seq.saturating_add(seq.div_ceil(wrap))
}

// The parts from `at` on. Answers the place behind them, as the next function does behind its lines: two functions
// alone have output and place, so that a struct of both would be longer.
fn put_parts(parts: &[&[u8]], out: &mut [u8], at: usize) -> usize
    requires { Fits at (text_of parts.now) out.old }
    ensures { Put at (text_of parts.now) out.old result out.new }
{
    let mut behind = at;
    for part in parts {
        scan::copy(part, out, behind);
        behind += part.len();
    }
    behind
}

// The sequence in lines of `wrap` bytes, the last with what is left, each ended by `\n`.
fn put_lines(seq: &[u8], wrap: usize, out: &mut [u8], at: usize) -> usize
    requires wide { 0 < wrap }
    requires room { Fits at (wrap_seq_text wrap seq.now) out.old }
    ensures { Put at (wrap_seq_text wrap seq.now) out.old result out.new }
{
    let mut behind = at;
    for line in seq.chunks(wrap) {
        behind = put_parts(&[line, b"\n"], out, behind);
    }
    behind
}
