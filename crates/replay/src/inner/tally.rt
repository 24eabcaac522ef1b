// What is counted of the jobs replayed, and the lines that are printed of it.
ghost use Rattle.std.specs.Prelude.{◌≡◌, ◌*◌, ◌≤◌, min, length};
ghost use Rattle.replay.specs.Tally.{none, added, tallied_of};

use super::super::inner::compare::{Difference, count_mode};
use super::super::inner::file::part;
use costs::svq1_enc_tree::saturating_add;
use macroblock::svq1_enc_inter::Svq1MbMode;
use plane_enc::svq1_enc_inter::WriteEnd;
use std::io;
use text::{put_decimal, put_text};

// Jobs, macroblocks, macroblocks of each mode, bits and error; and the first difference of the writer and of the reader.
#[derive(Clone, Copy)]
pub struct Tally {
    pub jobs: u64,
    pub blocks: u64,
    pub inter: u64,
    pub four: u64,
    pub intra: u64,
    pub skip: u64,
    pub bits: u64,
    pub error: u64,
    pub written: Option<Difference>,
    pub read: Option<Difference>,
}

pub fn no_tally() -> Tally
    ensures { result ≡ none }
{
    Tally {
        jobs: 0,
        blocks: 0,
        inter: 0,
        four: 0,
        intra: 0,
        skip: 0,
        bits: 0,
        error: 0,
        written: None,
        read: None,
    }
}

// One job: what the writer told of the macroblocks that it did, of at most `blocks`.
pub fn job_tally(
    stated: &[u32],
    blocks: usize,
    w: WriteEnd,
    written: Option<Difference>,
    read: Option<Difference>,
) -> Tally
    requires { 3 * blocks ≤ length stated.now }
    ensures { result ≡ tallied_of stated.now blocks w written read }
{
    let done = w.done.min(blocks);
    Tally {
        jobs: 1,
        blocks: done as u64,
        inter: count_mode(stated, Svq1MbMode::Inter, done),
        four: count_mode(stated, Svq1MbMode::Inter4Mv, done),
        intra: count_mode(stated, Svq1MbMode::Intra, done),
        skip: count_mode(stated, Svq1MbMode::Skip, done),
        bits: w.bits,
        error: w.error,
        written,
        read,
    }
}

// Two tallies together; what 64 bits cannot hold counts as their largest number.
pub fn add(a: Tally, b: Tally) -> Tally
    ensures { result ≡ added a b }
{
    Tally {
        jobs: saturating_add(a.jobs, b.jobs),
        blocks: saturating_add(a.blocks, b.blocks),
        inter: saturating_add(a.inter, b.inter),
        four: saturating_add(a.four, b.four),
        intra: saturating_add(a.intra, b.intra),
        skip: saturating_add(a.skip, b.skip),
        bits: saturating_add(a.bits, b.bits),
        error: saturating_add(a.error, b.error),
        written: a.written.or(b.written),
        read: a.read.or(b.read),
    }
}

// A line's first n bytes, to standard output.
pub fn write_line(rt: &impl Print, line: &[u8], n: usize) -> io::Result<()> {
    rt.write_all(part(line, 0, n))
}

// A number behind its name.
pub fn put_count(line: &mut [u8], at: usize, name: &[u8], n: u64) -> usize {
    let p = put_text(line, at, name);
    put_decimal(line, p, n)
}

// Who differs, and in what; nothing where they do not.
fn put_difference(line: &mut [u8], at: usize, who: &[u8], d: Option<Difference>) -> usize {
    let Some(what) = d else {
        return at;
    };
    let p = put_text(line, at, who);
    match what {
        Difference::Refusal => put_text(line, p, b" refuses"),
        Difference::Done => put_text(line, p, b" differs in macroblocks done"),
        Difference::Next => put_text(line, p, b" differs in the next bit"),
        Difference::Count => put_text(line, p, b" differs in the bit count"),
        Difference::Bits => put_text(line, p, b" differs in bits"),
        Difference::Steps => put_text(line, p, b" differs in mode, bits or error of a macroblock"),
        Difference::Samples => put_text(line, p, b" differs in samples"),
        Difference::X => put_text(line, p, b" differs in x of the vectors"),
        Difference::Y => put_text(line, p, b" differs in y of the vectors"),
    }
}

fn put_verdict(
    line: &mut [u8],
    at: usize,
    written: Option<Difference>,
    read: Option<Difference>,
) -> usize {
    if written.or(read).is_none() {
        return put_text(line, at, b", same\n");
    }
    let p = put_difference(line, at, b", the writer", written);
    let q = put_difference(line, p, b", the reader", read);
    put_text(line, q, b"\n")
}

fn put_modes(line: &mut [u8], at: usize, t: Tally) -> usize {
    let a = put_count(line, at, b", INTER ", t.inter);
    let b = put_count(line, a, b", INTER_4MV ", t.four);
    let c = put_count(line, b, b", INTRA ", t.intra);
    put_count(line, c, b", SKIP ", t.skip)
}

// The rest of a line from its jobs on.
pub fn put_tally(line: &mut [u8], at: usize, t: Tally) -> usize {
    let a = put_count(line, at, b", jobs ", t.jobs);
    let b = put_count(line, a, b", macroblocks ", t.blocks);
    let c = put_modes(line, b, t);
    let d = put_count(line, c, b", bits ", t.bits);
    let e = put_count(line, d, b", error ", t.error);
    put_verdict(line, e, t.written, t.read)
}
