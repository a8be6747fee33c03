// The writers. Each fills the front of `out` and answers 0, or a refusal's number and leaves `out` as it was: 9 where
// `out` is too short, 10 for a width 0. `len` is then the length written, the need of 9, or 0. A description comes as a
// flag and a slice, and what is written as slices of their own, since C calls them so.
ghost use Rattle.edge.specs.Edge.{WriteHeadIs, WriteIdDescIs, WriteSeqIs, WriteWrapSeqIs};
ghost use Rattle.edge.specs.Edge.{WriteToIs, WritePartsIs, WriteWrapIs};

use crate::tell::tell;

pub fn larizemba_write_head(head: &[u8], len: &mut usize, out: &mut [u8]) -> u32
    ensures { WriteHeadIs head.now out.old result len.new out.new }
{
    tell(write::write_head(head, out), len)
}

pub fn larizemba_write_id_desc(
    id: &[u8],
    with_desc: bool,
    desc: &[u8],
    len: &mut usize,
    out: &mut [u8],
) -> u32
    ensures { WriteIdDescIs id.now with_desc desc.now out.old result len.new out.new }
{
    tell(
        write::write_id_desc(id, with_desc.then_some(desc), out),
        len,
    )
}

pub fn larizemba_write_seq(seq: &[u8], len: &mut usize, out: &mut [u8]) -> u32
    ensures { WriteSeqIs seq.now out.old result len.new out.new }
{
    tell(write::write_seq(seq, out), len)
}

pub fn larizemba_write_wrap_seq(seq: &[u8], wrap: usize, len: &mut usize, out: &mut [u8]) -> u32
    ensures { WriteWrapSeqIs seq.now wrap out.old result len.new out.new }
{
    tell(write::write_wrap_seq(seq, wrap, out), len)
}

pub fn larizemba_write_to(head: &[u8], seq: &[u8], len: &mut usize, out: &mut [u8]) -> u32
    ensures { WriteToIs head.now seq.now out.old result len.new out.new }
{
    tell(write::write_to(head, seq, out), len)
}

pub fn larizemba_write_parts(
    id: &[u8],
    with_desc: bool,
    desc: &[u8],
    seq: &[u8],
    len: &mut usize,
    out: &mut [u8],
) -> u32
    ensures { WritePartsIs id.now with_desc desc.now seq.now out.old result len.new out.new }
{
    tell(
        write::write_parts(id, with_desc.then_some(desc), seq, out),
        len,
    )
}

pub fn larizemba_write_wrap(
    id: &[u8],
    with_desc: bool,
    desc: &[u8],
    seq: &[u8],
    wrap: usize,
    len: &mut usize,
    out: &mut [u8],
) -> u32
    ensures { WriteWrapIs id.now with_desc desc.now seq.now wrap out.old result len.new out.new }
{
    tell(
        write::write_wrap(id, with_desc.then_some(desc), seq, wrap, out),
        len,
    )
}
