// The cards of a plane of 16 x 16 samples of 100 over a reference of 0.
ghost use Rattle.std.specs.Prelude.{◌≤◌};
ghost use Rattle.plane_enc.specs.WriterNeeds.{write_end_of as writeEnd};
ghost use Rattle.plane_dec.specs.ReaderNeeds.{read_end_of as readEnd};
ghost use Rattle.cards.specs.Planes.{small_given, small_task, small_slices, fresh_slices, CardWrote, ReadOff};

use super::super::inner::line::{print_line, put_number};
use super::super::inner::mode::put_mode;
use super::super::inner::plane_text::{LAMBDA, RADIUS, put_asked, put_end, put_flat, put_written};
use super::super::inner::sums::count_of;
use canvas::svq1_plane::Svq1PlaneCanvas;
use macroblock::svq1_enc_inter::Settings;
use plane_dec::svq1_plane::{ReadEnd, decode_inter_plane};
use plane_enc::svq1_enc_inter::{WriteEnd, encode_inter_plane};
use text::put_text;

const SOURCE: u8 = 100;

const REFERENCE: u8 = 0;

const CANVAS: Svq1PlaneCanvas = Svq1PlaneCanvas {
    width: 16,
    height: 16,
    stride: 16,
    rows: 16,
};

// The plane written into `out` from bit `start` on.
#[tactic(auto, unfolding(crate::specs::Planes::small_given, crate::specs::Planes::small_task, crate::specs::Planes::fresh_slices))]
fn write_plane(book: &[u8], codebook: &[u8], lambda: u64, out: &mut [u8], start: usize) -> WriteEnd
    ensures { CardWrote (small_given book.now codebook.now) (small_task lambda) out.old start fresh_slices (writeEnd result) out.new }
{
    let source = [SOURCE; 256];
    let reference = [REFERENCE; 256];
    let mut recon = [0u8; 256];
    let mut vx = [0u8; 4];
    let mut vy = [0u8; 4];
    let settings = Settings {
        lambda,
        radius: RADIUS,
        four: true,
        margin: 0,
    };
    encode_inter_plane(
        CANVAS, &source, &reference, book, codebook, settings, out, start, &mut recon, &mut vx,
        &mut vy,
    )
}

// What was asked, what came out, and the mode of a macroblock that fits.
fn put_plane(
    line: &mut [u8],
    book: &[u8],
    codebook: &[u8],
    lambda: u64,
    out: &mut [u8],
    start: usize,
) -> usize {
    let canvas = CANVAS;
    let flat = put_flat(line, canvas.width, canvas.height, SOURCE, REFERENCE);
    let asked = put_asked(line, flat, lambda, out.len(), start);
    let end = write_plane(book, codebook, lambda, out, start);
    let told = put_written(line, asked, end, out);
    if end.refused.is_some() {
        return told;
    }
    put_mode(line, told, book, out, start)
}

fn print_plane(
    rt: &impl Print,
    line: &mut [u8],
    book: &[u8],
    codebook: &[u8],
    lambda: u64,
    out: &mut [u8],
    start: usize,
) -> usize
    ensures { result ≤ 1 }
{
    let all = put_plane(line, book, codebook, lambda, out, start);
    print_line(rt, line, all)
}

// The first card; the same at the largest lambda; the first in three bytes from bits 2 and 3 on. The bytes are 255 before.
pub fn print_planes(rt: &impl Print, line: &mut [u8], book: &[u8], codebook: &[u8]) -> usize
    ensures { result ≤ 4 }
{
    let mut first = [255u8; 3];
    let mut second = [255u8; 1];
    let mut third = [255u8; 3];
    let mut fourth = [255u8; 3];
    let a = print_plane(rt, line, book, codebook, LAMBDA, &mut first, 0);
    let b = print_plane(
        rt,
        line,
        book,
        codebook,
        18446744073709551615,
        &mut second,
        0,
    );
    let c = print_plane(rt, line, book, codebook, LAMBDA, &mut third, 2);
    let d = print_plane(rt, line, book, codebook, LAMBDA, &mut fourth, 3);
    a + b + c + d
}

// The plane of some bytes, read into `recon`.
#[tactic(auto, unfolding(crate::specs::Planes::small_given))]
fn read_plane(book: &[u8], codebook: &[u8], bytes: &[u8], recon: &mut [u8]) -> ReadEnd
    ensures { ReadOff (small_given book.now codebook.now) bytes.now (small_slices recon.old) (readEnd result) recon.new }
{
    let reference = [REFERENCE; 256];
    let mut vx = [0u8; 4];
    let mut vy = [0u8; 4];
    decode_inter_plane(
        CANVAS, &reference, book, codebook, bytes, 0, recon, &mut vx, &mut vy,
    )
}

// What the reader answers, and how many samples are 100.
fn put_read(line: &mut [u8], at: usize, book: &[u8], codebook: &[u8], bytes: &[u8]) -> usize {
    let mut recon = [0u8; 256];
    let end = read_plane(book, codebook, bytes, &mut recon);
    let told = put_end(line, at, end.refused, end.done, end.next);
    put_number(
        line,
        told,
        b", samples of 100: ",
        count_of(&recon, SOURCE) as u64,
    )
}

// The first card's three bytes read.
pub fn print_read_back(rt: &impl Print, line: &mut [u8], book: &[u8], codebook: &[u8]) -> usize
    ensures { result ≤ 1 }
{
    let mut bytes = [255u8; 3];
    write_plane(book, codebook, LAMBDA, &mut bytes, 0);
    let asked = put_text(line, 0, b"the first card read back");
    let all = put_read(line, asked, book, codebook, &bytes);
    print_line(rt, line, all)
}
