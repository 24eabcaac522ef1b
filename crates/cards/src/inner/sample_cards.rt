// The cards of raster places and of means of samples.
ghost use Rattle.std.specs.Prelude.{◌≤◌};

use super::super::inner::line::{print_line, put_number, put_option};
use book::svq1_blocktree::Svq1Level;
use codebook::svq1_codebook::vector_byte_to_raster;
use compensation::svq1_enc_inter::inner::{mean2, mean4};

fn print_place(rt: &impl Print, line: &mut [u8], level: Svq1Level, byte: usize) -> usize
    ensures { result ≤ 1 }
{
    let number = put_number(line, 0, b"L", level.number() as u64);
    let asked = put_number(line, number, b" byte ", byte as u64);
    let place = vector_byte_to_raster(level, byte);
    let all = put_option(line, asked, place, b": nowhere", |line, at, p| {
        put_number(line, at, b": raster ", p as u64)
    });
    print_line(rt, line, all)
}

fn print_mean_of_two(rt: &impl Print, line: &mut [u8], a: u8, b: u8) -> usize
    ensures { result ≤ 1 }
{
    let first = put_number(line, 0, b"samples ", a as u64);
    let second = put_number(line, first, b", ", b as u64);
    let all = put_number(line, second, b": mean ", mean2(a, b) as u64);
    print_line(rt, line, all)
}

fn print_mean_of_four(rt: &impl Print, line: &mut [u8], a: u8, b: u8, c: u8, d: u8) -> usize
    ensures { result ≤ 1 }
{
    let first = put_number(line, 0, b"samples ", a as u64);
    let second = put_number(line, first, b", ", b as u64);
    let third = put_number(line, second, b", ", c as u64);
    let fourth = put_number(line, third, b", ", d as u64);
    let all = put_number(line, fourth, b": mean ", mean4(a, b, c, d) as u64);
    print_line(rt, line, all)
}

// L3 byte 37, L2 byte 20; samples 10, 11 and 1, 2, 3, 4.
pub fn print_samples(rt: &impl Print, line: &mut [u8]) -> usize
    ensures { result ≤ 4 }
{
    let three = print_place(rt, line, Svq1Level::L3, 37);
    let two = print_place(rt, line, Svq1Level::L2, 20);
    let pair = print_mean_of_two(rt, line, 10, 11);
    three + two + pair + print_mean_of_four(rt, line, 1, 2, 3, 4)
}
