// A place in the output where text is put, one part behind the other.
ghost use Rattle.std.specs.Prelude.{◌≡◌, length};
ghost use Rattle.write.specs.Listing.{decimal};
ghost use Rattle.rows.specs.Put.{Holds, PutOn};

use itoa::write_digits;

#[derive(Drop)]
pub(crate) struct Cursor<'o> {
    pub(crate) out: &'o mut [u8],
    pub(crate) at: usize,
}

impl Cursor<'_> {
    pub(crate) fn put(&mut self, text: &[u8])
        requires { Holds text.now self.old }
        ensures { PutOn text.now self.old self.new }
    {
        let end = self.at + text.len();
        self.out[self.at..end].copy_from_slice(text);
        self.at = end;
    }

    pub(crate) fn put_number(&mut self, n: u64)
        requires { Holds (decimal n) self.old }
        ensures { PutOn (decimal n) self.old self.new }
    {
        let end = self.at + digits(n);
        write_digits(n, self.out, end);
        self.at = end;
    }
}

// How many digits a number has.
pub(crate) fn digits(n: u64) -> usize
    ensures { result ≡ length (decimal n) }
{
    n.checked_ilog10().map_or(1, |power| power as usize + 1)
}
