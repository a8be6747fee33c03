// What a set call copies (01, module 6): a record's ends into the set's table, and the window's filled bytes.
ghost use Rattle.std.specs.Prelude.{◌≡◌, take};
ghost use Rattle.scan.specs.Move.{pasted};

// The first `n` elements of a slice, or all that it has, into `out` from `at` on. Where they do not fit there, nothing
// changes. Output and place stay two parameters, as in `scan::copy`.
pub(crate) fn copy_front<T: Copy>(src: &[T], n: usize, out: &mut [T], at: usize)
    ensures { out.new ≡ pasted at (take n src.now) out.old }
{
    scan::copy(&src[..n.min(src.len())], out, at);
}
