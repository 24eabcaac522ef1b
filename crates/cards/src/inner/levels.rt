// What document 01 lists of the levels and of the clamp, asked of the calls: sizes, parts, pages, and the sample that a sum shows.
ghost use Rattle.std.specs.Prelude.{◌≤◌};

use super::super::inner::line::{print_line, put_number, put_option, put_short};
use book::svq1_blocktree::Svq1Level;
use book::svq1_vlc::Svq1Half;
use codebook::svq1_codebook::half_byte_offset_in_payload;
use codebook::svq1_mean::saturate_u8;
use text::{put_decimal, put_text};

fn put_parts(line: &mut [u8], at: usize, parts: Option<Svq1Level>) -> usize {
    let end = put_text(line, at, b", parts ");
    put_option(line, end, parts, b"none", |line, at, level| {
        put_number(line, at, b"L", level.number() as u64)
    })
}

fn put_page(line: &mut [u8], at: usize, name: &[u8], page: Option<usize>) -> usize {
    let end = put_text(line, at, name);
    put_option(line, end, page, b"none", |line, at, p| {
        put_decimal(line, at, p as u64)
    })
}

fn put_size(line: &mut [u8], level: Svq1Level) -> usize {
    let dims = level.block_dims();
    let number = put_number(line, 0, b"L", level.number() as u64);
    let width = put_number(line, number, b": ", dims.width as u64);
    put_number(line, width, b"x", dims.height as u64)
}

fn print_level(rt: &impl Print, line: &mut [u8], level: Svq1Level) -> usize
    ensures { result ≤ 1 }
{
    let size = put_size(line, level);
    let parts = put_parts(line, size, level.subdivide());
    let first = half_byte_offset_in_payload(level, Svq1Half::Intra);
    let intra = put_page(line, parts, b", intra page ", first);
    let second = half_byte_offset_in_payload(level, Svq1Half::Inter);
    let all = put_page(line, intra, b", inter page ", second);
    print_line(rt, line, all)
}

pub fn print_levels(rt: &impl Print, line: &mut [u8]) -> usize
    ensures { result ≤ 6 }
{
    let a = print_level(rt, line, Svq1Level::L0);
    let b = print_level(rt, line, Svq1Level::L1);
    let c = print_level(rt, line, Svq1Level::L2);
    let d = print_level(rt, line, Svq1Level::L3);
    let e = print_level(rt, line, Svq1Level::L4);
    a + b + c + d + e + print_level(rt, line, Svq1Level::L5)
}

fn print_sum(rt: &impl Print, line: &mut [u8], sum: i16) -> usize
    ensures { result ≤ 1 }
{
    let asked = put_short(line, 0, b"sum ", sum);
    let all = put_number(line, asked, b": sample ", saturate_u8(sum) as u64);
    print_line(rt, line, all)
}

// Below, in and above the range of samples.
pub fn print_sums(rt: &impl Print, line: &mut [u8]) -> usize
    ensures { result ≤ 3 }
{
    let low = print_sum(rt, line, -1);
    let in_range = print_sum(rt, line, 255);
    low + in_range + print_sum(rt, line, 256)
}
