// The static library of the host edge: what C programs link, under the names that include/larizemba.h declares. Each
// function hands its arguments to the function of the same name in crate `edge`, and promises what that one promises.
#![tactic(auto)]

ghost use Rattle.edge.specs.Edge.{GrowIs, SetupIs, WriteHeadIs, WriteIdDescIs, WriteSeqIs, WriteWrapSeqIs};
ghost use Rattle.edge.specs.Edge.{WriteToIs, WritePartsIs, WriteWrapIs, WriteWrapSeqIterIs, WriteUnchangedIs};

// Whether the policy has a capacity after `size` in a window of `window` bytes. It stands in `next`, which else is 0.
// A policy comes as the number of its kind with n and limit beside it.
#[unsafe(no_mangle)]
pub extern "C" fn larizemba_grow_to(
    kind: u64,
    n: usize,
    limit: usize,
    size: usize,
    window: usize,
    next: &mut usize,
) -> bool
    ensures { GrowIs kind n limit size window result next.new }
{
    edge::larizemba_grow_to(kind, n, limit, size, window, next)
}

// 0 where a reader of this capacity and policy can be made over a window of `window` bytes and a table of `slots` ends,
// else 1.
#[unsafe(no_mangle)]
pub extern "C" fn larizemba_setup_check(
    capacity: usize,
    kind: u64,
    n: usize,
    limit: usize,
    window: usize,
    slots: usize,
) -> u32
    ensures { SetupIs capacity kind n limit window slots result }
{
    edge::larizemba_setup_check(capacity, kind, n, limit, window, slots)
}

// The writers. Each fills the front of `out` and answers 0, or a refusal's number and leaves `out` as it was: 9 where
// `out` is too short, 10 for a width 0. `len` is then the length written, the need of 9, or 0.
#[unsafe(no_mangle)]
pub extern "C" fn larizemba_write_head(head: &[u8], len: &mut usize, out: &mut [u8]) -> u32
    ensures { WriteHeadIs head.now out.old result len.new out.new }
{
    edge::larizemba_write_head(head, len, out)
}

#[unsafe(no_mangle)]
pub extern "C" fn larizemba_write_id_desc(
    id: &[u8],
    with_desc: bool,
    desc: &[u8],
    len: &mut usize,
    out: &mut [u8],
) -> u32
    ensures { WriteIdDescIs id.now with_desc desc.now out.old result len.new out.new }
{
    edge::larizemba_write_id_desc(id, with_desc, desc, len, out)
}

#[unsafe(no_mangle)]
pub extern "C" fn larizemba_write_seq(seq: &[u8], len: &mut usize, out: &mut [u8]) -> u32
    ensures { WriteSeqIs seq.now out.old result len.new out.new }
{
    edge::larizemba_write_seq(seq, len, out)
}

#[unsafe(no_mangle)]
pub extern "C" fn larizemba_write_wrap_seq(
    seq: &[u8],
    wrap: usize,
    len: &mut usize,
    out: &mut [u8],
) -> u32
    ensures { WriteWrapSeqIs seq.now wrap out.old result len.new out.new }
{
    edge::larizemba_write_wrap_seq(seq, wrap, len, out)
}

#[unsafe(no_mangle)]
pub extern "C" fn larizemba_write_to(
    head: &[u8],
    seq: &[u8],
    len: &mut usize,
    out: &mut [u8],
) -> u32
    ensures { WriteToIs head.now seq.now out.old result len.new out.new }
{
    edge::larizemba_write_to(head, seq, len, out)
}

#[unsafe(no_mangle)]
pub extern "C" fn larizemba_write_parts(
    id: &[u8],
    with_desc: bool,
    desc: &[u8],
    seq: &[u8],
    len: &mut usize,
    out: &mut [u8],
) -> u32
    ensures { WritePartsIs id.now with_desc desc.now seq.now out.old result len.new out.new }
{
    edge::larizemba_write_parts(id, with_desc, desc, seq, len, out)
}

#[unsafe(no_mangle)]
pub extern "C" fn larizemba_write_wrap(
    id: &[u8],
    with_desc: bool,
    desc: &[u8],
    seq: &[u8],
    wrap: usize,
    len: &mut usize,
    out: &mut [u8],
) -> u32
    ensures { WriteWrapIs id.now with_desc desc.now seq.now wrap out.old result len.new out.new }
{
    edge::larizemba_write_wrap(id, with_desc, desc, seq, wrap, len, out)
}

// The writers of a record that stands in bytes, given by the place of its `>` and its line ends, the head's end first.
// They answer as the other writers do, and besides 11 where an end that they use is not rising between `start` and the
// bytes' end, or there is none.
#[unsafe(no_mangle)]
pub extern "C" fn larizemba_write_wrap_seq_iter(
    bytes: &[u8],
    start: usize,
    ends: &[usize],
    wrap: usize,
    len: &mut usize,
    out: &mut [u8],
) -> u32
    ensures { WriteWrapSeqIterIs bytes.now start ends.now wrap out.old result len.new out.new }
{
    edge::larizemba_write_wrap_seq_iter(bytes, start, ends, wrap, len, out)
}

#[unsafe(no_mangle)]
pub extern "C" fn larizemba_write_unchanged(
    bytes: &[u8],
    start: usize,
    ends: &[usize],
    len: &mut usize,
    out: &mut [u8],
) -> u32
    ensures { WriteUnchangedIs bytes.now start ends.now out.old result len.new out.new }
{
    edge::larizemba_write_unchanged(bytes, start, ends, len, out)
}
