// The lines of the program's text: a row by its four values, and the last line by what a read answered.
ghost use Rattle.std.specs.Prelude.{◌≡◌};
ghost use Rattle.write.specs.Listing.{row_of, refused_text};
ghost use Rattle.rows.specs.Rows.{PutRow, PutLast, left, filled_at};
ghost use Rattle.rows.specs.Put.{HasRoom};

use crate::Room;
use crate::cursor::{Cursor, digits};
use reader::Answer;

// What stands between a row's values.
const TAB: &[u8] = b"\t";

// Line, tab, byte, tab, id, tab, joined length, newline. Output and place stay two parameters here and in `put_last`:
// the caller keeps them from call to call, a place where nothing was put too. A row's values come by themselves, since
// no other function takes them.
#[tactic(auto, using(crate::proofs::Digits::digits_short))]
pub fn put_row(
    line: u64,
    byte: u64,
    id: &[u8],
    len: usize,
    out: &mut [u8],
    at: usize,
) -> Result<usize, Room>
    ensures { PutRow line byte id.now len out.old at result out.new }
{
    let length = len as u64;
    let need = digits(line) + digits(byte) + id.len() + digits(length) + 4;
    test_room(need, out, at)?;
    let mut row = Cursor { out, at };
    row.put_number(line);
    row.put(TAB);
    row.put_number(byte);
    row.put(TAB);
    row.put(id);
    row.put(TAB);
    row.put_number(length);
    row.put(b"\n");
    Ok(row.at)
}

// Refusal 9, unless `need` bytes fit from a place on.
fn test_room(need: usize, out: &[u8], at: usize) -> Result<(), Room>
    ensures { HasRoom need out.now at result }
{
    match out.len().checked_sub(at) {
        Some(left) if need <= left => Ok(()),
        _ => Err(Room(need)),
    }
}

// `end` or `refused N`, newline; nothing at an ask or a record.
pub fn put_last(answer: Answer, out: &mut [u8], at: usize) -> Result<usize, Room>
    ensures { PutLast answer out.old at result out.new }
{
    let number = match answer {
        Answer::Ask(_) | Answer::Record(_) => return put_text(b"", out, at),
        Answer::End => return put_text(b"end\n", out, at),
        Answer::Start { .. } => 2,
        Answer::Window(_) => 3,
        Answer::Table(_) => 4,
        Answer::Place => 5,
        Answer::State => 11,
    };
    put_refused(number, out, at)
}

// A text as it stands.
fn put_text(text: &[u8], out: &mut [u8], at: usize) -> Result<usize, Room>
    ensures { left result out.new ≡ filled_at at text.now out.old }
{
    let need = text.len();
    test_room(need, out, at)?;
    let mut line = Cursor { out, at };
    line.put(text);
    Ok(line.at)
}

// `refused N`: the number is 01's, which an answer has by `put_last` alone, since it is one enum and no error.
#[tactic(auto, using(crate::proofs::Digits::digits_short))]
fn put_refused(number: u64, out: &mut [u8], at: usize) -> Result<usize, Room>
    ensures { left result out.new ≡ filled_at at (refused_text number) out.old }
{
    let need = digits(number) + 9;
    test_room(need, out, at)?;
    let mut line = Cursor { out, at };
    line.put(b"refused ");
    line.put_number(number);
    line.put(b"\n");
    Ok(line.at)
}
