// A part copied into the output.
ghost use Rattle.scan.specs.Move.{Copy};

// `src` into `out` from `at` on. Where it does not fit there, nothing changes. Output and place stay two parameters: no
// place is left when the call is over.
#[tactic(auto, unfolding(crate::specs::Move::pasted))]
pub fn copy<T: Copy>(src: &[T], out: &mut [T], at: usize)
    ensures { Copy at src.now out.old out.new }
{
    if at <= out.len() && src.len() <= out.len() - at {
        // One by one: `copy_from_slice` is a call of `memmove`, which the archive for C would have to find outside, and
        // which costs two or three times as much where the pieces have a few bytes.
        for i in 0..src.len() {
            out[at + i] = src[i];
        }
    }
}
