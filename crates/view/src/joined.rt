// The full sequence: one line's own part of the window, or a joined copy in the scratch.
ghost use Rattle.std.specs.Prelude.{◌≡◌};
ghost use Rattle.meaning.specs.Parts.{joined};
ghost use Rattle.view.specs.Trimmed.{lines_left};
ghost use Rattle.view.specs.Full.{FullIn, Pick, says, left, filled};

use crate::parts::part;
use crate::{Extent, Full, FullError, Record, TrimmedLines};

#[tactic(auto, using(crate::proofs::Joins::joined_steps))]
impl<'b, 'e> Record<'b, 'e> {
    // The full sequence. With one line nothing is copied, and the scratch may be empty.
    pub fn full_seq(self, scratch: &mut [u8]) -> Result<Full, FullError>
        ensures { FullIn self.entry.bytes.now self.entry.start self.entry.ends.now scratch.old result scratch.new }
    {
        let mut lines = self.trimmed_lines().ok_or(FullError::State)?;
        // The head is not part of it.
        lines.next().ok_or(FullError::State)?;
        if self.lines() == 1 {
            let line = lines.next().unwrap();
            return Ok(Full::Window(Extent::behind(self.ends[0], line)));
        }
        join(lines, scratch)
    }
}

// The lines one after the other at the front of the scratch, or refusal 9.
#[tactic(auto, using(crate::proofs::Joins::joined_steps))]
fn join(lines: TrimmedLines, scratch: &mut [u8]) -> Result<Full, FullError>
    ensures { left (says result) scratch.new ≡ filled (joined (lines_left lines.entry)) scratch.old }
{
    let need = lines.joined_len();
    if scratch.len() < need {
        return Err(FullError::Room(need));
    }
    let mut at = 0;
    for line in lines {
        scan::copy(line, scratch, at);
        at += line.len();
    }
    Ok(Full::Scratch(need))
}

// The part of window or scratch that holds it, empty on a refusal.
#[tactic(auto, unfolding(crate::specs::Full::picked))]
pub fn pick<'a>(full: Result<Full, FullError>, window: &'a [u8], scratch: &'a [u8]) -> &'a [u8]
    ensures { Pick full window.now scratch.now result.now }
{
    match full {
        Ok(Full::Window(extent)) => part(window, extent),
        Ok(Full::Scratch(n)) => part(scratch, Extent { from: 0, to: n }),
        Err(_) => &[],
    }
}
