// A record as it stands, from its `>` to its last end.
ghost use Rattle.rewrite.specs.Rewrite.{WriteUnchangedIn};

use crate::RewriteError;
use view::Record;

// The copy from `>` to the last end, and `\n` unless it ends in one. No other end is used.
pub fn write_unchanged_in(given: Record, out: &mut [u8]) -> Result<usize, RewriteError>
    ensures { WriteUnchangedIn given.entry.bytes.now given.entry.start given.entry.ends.now out.old result out.new }
{
    let Record { bytes, start, ends } = given;
    let Some(&last) = ends.last() else {
        return Err(RewriteError::State);
    };
    if last <= start || bytes.len() < last {
        return Err(RewriteError::State);
    }
    let copy = &bytes[start..last];
    let text = copy.strip_suffix(b"\n").unwrap_or(copy);
    Ok(write::write_seq(text, out)?)
}
