// What a writer answers, as a number and a length.
ghost use Rattle.edge.specs.Edge.{ToldBy};

use refusal::Refusal;

// 0 and the length written, or a refusal's number and its need.
pub(crate) fn tell<E: Refusal>(answer: Result<usize, E>, len: &mut usize) -> u32
    ensures { ToldBy E.number E.need answer result len.new }
{
    match answer {
        Ok(written) => {
            *len = written;
            0
        }
        Err(refusal) => {
            *len = refusal.need();
            refusal.number()
        }
    }
}
