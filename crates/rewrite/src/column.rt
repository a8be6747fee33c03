// Lines joined and cut every `wrap` bytes in one pass: each line is copied in pieces up to the next cut, and the column
// is carried on to the next line.
ghost use Rattle.rewrite.specs.Wrap.{Goes, Piece, Reached, Ends, Ended};

// A place in the output, and how many bytes stand before it since the last cut.
#[derive(Drop)]
pub(crate) struct Column<'o> {
    pub(crate) out: &'o mut [u8],
    pub(crate) wrap: usize,
    pub(crate) at: usize,
    pub(crate) col: usize,
}

impl Column<'_> {
    // One line from the column on, piece by piece, with a `\n` at each cut.
    pub(crate) fn put_line(&mut self, line: &[u8])
        requires { Goes line.now self.old }
        ensures { Reached line.now self.old self.new }
    {
        // The first piece is shorter than the others, so that these are no `chunks`.
        let mut rest = line;
        while !rest.is_empty() {
            let (piece, behind) = rest.split_at(rest.len().min(self.wrap - self.col));
            self.put_piece(piece);
            rest = behind;
        }
    }

    // A piece that ends before the next cut, or there: then a `\n` is put behind it.
    fn put_piece(&mut self, piece: &[u8])
        requires { Piece piece.now self.old }
        ensures { Reached piece.now self.old self.new }
    {
        scan::copy(piece, self.out, self.at);
        self.at += piece.len();
        self.col += piece.len();
        if self.col == self.wrap {
            self.end_line();
        }
    }

    // A `\n`, and the column behind it.
    pub(crate) fn end_line(&mut self)
        requires { Ends self.old }
        ensures { Ended self.old self.new }
    {
        scan::copy(b"\n", self.out, self.at);
        self.at += 1;
        self.col = 0;
    }
}
