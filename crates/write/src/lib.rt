// Writers (01, module 3; the free functions at the end of fasta.rs): each fills the front of the output, answers the
// length and leaves the rest. What is written stands in parameters of its own, as in the Rust's functions.
#![tactic(auto)]

ghost use Rattle.write.specs.Output.{bytes_of, WriteHead, WriteIdDesc, WriteSeq};
ghost use Rattle.write.specs.Output.{WriteWrapSeq, WriteTo, WriteParts, WriteWrap};

mod error;
mod fill;

pub use error::WriteError;
use fill::{fill, fill_lines};

// `>`, the head and `\n`.
pub fn write_head(head: &[u8], out: &mut [u8]) -> Result<usize, WriteError>
    ensures { WriteHead head.now out.old result out.new }
{
    fill(&[b">", head, b"\n"], out)
}

// `>`, the id, one space and the description where there is one, and `\n`.
pub fn write_id_desc(id: &[u8], desc: Option<&[u8]>, out: &mut [u8]) -> Result<usize, WriteError>
    ensures { WriteIdDesc id.now (bytes_of desc.entry) out.old result out.new }
{
    match desc {
        Some(desc) => fill(&[b">", id, b" ", desc, b"\n"], out),
        None => fill(&[b">", id, b"\n"], out),
    }
}

// The sequence and `\n`.
pub fn write_seq(seq: &[u8], out: &mut [u8]) -> Result<usize, WriteError>
    ensures { WriteSeq seq.now out.old result out.new }
{
    fill(&[seq, b"\n"], out)
}

// The sequence in lines of `wrap` bytes, the last with what is left, each ended by `\n`. An empty sequence writes
// nothing.
pub fn write_wrap_seq(seq: &[u8], wrap: usize, out: &mut [u8]) -> Result<usize, WriteError>
    ensures { WriteWrapSeq seq.now wrap out.old result out.new }
{
    fill_lines(&[], seq, wrap, out)
}

// A record of a head and a sequence.
pub fn write_to(head: &[u8], seq: &[u8], out: &mut [u8]) -> Result<usize, WriteError>
    ensures { WriteTo head.now seq.now out.old result out.new }
{
    fill(&[b">", head, b"\n", seq, b"\n"], out)
}

// A record of an id, a description or none, and a sequence.
pub fn write_parts(
    id: &[u8],
    desc: Option<&[u8]>,
    seq: &[u8],
    out: &mut [u8],
) -> Result<usize, WriteError>
    ensures { WriteParts id.now (bytes_of desc.entry) seq.now out.old result out.new }
{
    match desc {
        Some(desc) => fill(&[b">", id, b" ", desc, b"\n", seq, b"\n"], out),
        None => fill(&[b">", id, b"\n", seq, b"\n"], out),
    }
}

// The same with the sequence in lines of `wrap` bytes.
pub fn write_wrap(
    id: &[u8],
    desc: Option<&[u8]>,
    seq: &[u8],
    wrap: usize,
    out: &mut [u8],
) -> Result<usize, WriteError>
    ensures { WriteWrap id.now (bytes_of desc.entry) seq.now wrap out.old result out.new }
{
    match desc {
        Some(desc) => fill_lines(&[b">", id, b" ", desc, b"\n"], seq, wrap, out),
        None => fill_lines(&[b">", id, b"\n"], seq, wrap, out),
    }
}
