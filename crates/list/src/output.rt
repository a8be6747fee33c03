// Output: rows are kept in a buffer, which is written when the next one does not fit, and at the end.
use crate::failure::Failure;
use rows::Room;
use std::io;
use std::io::ErrorKind;

// The longest row has fewer than 65,600 bytes: an id as long as a record may be, three numbers and four bytes. Twice
// the window holds it.
pub(crate) const LENGTH: usize = 131072;

// The buffer, and how much of it is taken.
#[derive(Drop)]
pub(crate) struct Output {
    pub(crate) buffer: [u8; LENGTH],
    pub(crate) at: usize,
}

impl Output {
    // Keeps a row behind those that are kept. One that does not fit there is put into the buffer once that is written.
    pub(crate) fn keep<F: Fn(&mut [u8], usize) -> Result<usize, Room>>(
        &mut self,
        rt: &impl Print,
        put: F,
    ) -> Result<(), Failure>
        requires { F.IsAlwaysCallable put }
    {
        if let Ok(at) = put(&mut self.buffer, self.at) {
            self.at = at;
            return Ok(());
        }
        self.flush(rt)?;
        self.at = put(&mut self.buffer, 0)?;
        Ok(())
    }

    // Writes what is kept, which is gone then, even where that fails. A write that a signal interrupts is tried again.
    pub(crate) fn flush(&mut self, rt: &impl Print) -> Result<(), Failure> {
        let mut rows = self.buffer.get(..self.at).unwrap_or(&[]);
        self.at = 0;
        for _ in 0..u64::MAX {
            if rows.is_empty() {
                return Ok(());
            }
            match rt.write_some(rows) {
                Ok(0) => return Err(Failure::Nothing),
                Ok(n) => rows = &rows[n..],
                Err(e) if e.kind() == ErrorKind::Interrupted => {}
                Err(e) => return Err(Failure::Write(e)),
            }
        }
        Err(Failure::Write(io::Error::from(ErrorKind::Interrupted)))
    }
}
