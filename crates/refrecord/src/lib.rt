// A record that borrows window and line ends (01, module 8; fasta.rs, `RefRecord`): a reader's current record as one
// value, with the window and the table that were lent to the reader. Its functions are the views of the current record
// (crate view), so they refuse as those do: 7 without a current record, 11 in a state that refusal 11 names.
#![tactic(auto)]

ghost use Rattle.view.specs.Current.{Head, Id, Desc, Seq};
ghost use Rattle.refrecord.specs.Record.{New, Of, LineOf, ShownOf};

use reader::Reader;
use view::View;

// The fields stand in the order in which the views take them. Window and table may be lent for different times.
#[derive(Clone, Copy)]
pub struct RefRecord<'w, 'e> {
    pub reader: Reader,
    pub window: &'w [u8],
    pub ends: &'e [usize],
}

impl<'w, 'e> RefRecord<'w, 'e> {
    // The current record of a reader. Nothing is tested here: without a current record each view refuses.
    pub fn new(reader: Reader, window: &'w [u8], ends: &'e [usize]) -> RefRecord<'w, 'e>
        ensures { New reader window.entry ends.entry result }
    {
        RefRecord {
            reader,
            window,
            ends,
        }
    }

    // The head.
    pub fn head(self) -> View
        ensures { Of Head self.entry result }
    {
        view::head(self.reader, self.window, self.ends)
    }

    // Its id.
    pub fn id(self) -> View
        ensures { Of Id self.entry result }
    {
        view::id(self.reader, self.window, self.ends)
    }

    // Its description, or none.
    pub fn desc(self) -> View
        ensures { Of Desc self.entry result }
    {
        view::desc(self.reader, self.window, self.ends)
    }

    // The raw sequence.
    pub fn seq(self) -> View
        ensures { Of Seq self.entry result }
    {
        view::seq(self.reader, self.window, self.ends)
    }

    // Its sequence line i, or refusal 8.
    pub fn line(self, i: usize) -> View
        ensures { LineOf self.entry i result }
    {
        view::line(self.reader, self.window, self.ends, i)
    }

    // The part itself that a view names, empty on a refusal and where there is none. It lives as long as the window is
    // lent.
    pub fn shown(self, view: View) -> &'w [u8]
        ensures { ShownOf self.entry view result.now }
    {
        view::shown(view, self.window)
    }
}
