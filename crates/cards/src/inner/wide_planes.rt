// The cards of the largest width: planes of height 1, all samples 100, as the reference is.
ghost use Rattle.std.specs.Prelude.{true, ◌≤◌};
ghost use Rattle.macroblock.specs.MacroblockNeeds.{given_by};
ghost use Rattle.macroblock_choice.specs.ChosenNeeds.{task_by};
ghost use Rattle.plane_enc.specs.WriterNeeds.{write_end_of};
ghost use Rattle.cards.specs.Planes.{wide_slices, CardWrote};

use super::super::inner::line::print_line;
use super::super::inner::plane_text::{LAMBDA, RADIUS, put_asked, put_flat, put_written};
use canvas::svq1_plane::Svq1PlaneCanvas;
use macroblock::svq1_enc_inter::Settings;
use plane_enc::svq1_enc_inter::{WriteEnd, encode_inter_plane};

const SAMPLE: u8 = 100;

// The plane written into `out` from bit 0 on, with room for the vectors of 65 macroblocks.
#[tactic(auto, unfolding(crate::specs::Planes::wide_slices))]
fn write_plane(
    canvas: Svq1PlaneCanvas,
    source: &[u8],
    reference: &[u8],
    book: &[u8],
    codebook: &[u8],
    out: &mut [u8],
    recon: &mut [u8],
) -> WriteEnd
    ensures { CardWrote (given_by canvas reference.now book.now codebook.now) (task_by source.now (record { lambda = 32; radius = 8; four = true; margin = 0 })) out.old 0 (wide_slices recon.old) (write_end_of result) out.new }
{
    let mut vx = [0u8; 260];
    let mut vy = [0u8; 260];
    let settings = Settings {
        lambda: LAMBDA,
        radius: RADIUS,
        four: true,
        margin: 0,
    };
    encode_inter_plane(
        canvas, source, reference, book, codebook, settings, out, 0, recon, &mut vx, &mut vy,
    )
}

fn print_plane(
    rt: &impl Print,
    line: &mut [u8],
    canvas: Svq1PlaneCanvas,
    source: &[u8],
    reference: &[u8],
    book: &[u8],
    codebook: &[u8],
    recon: &mut [u8],
) -> usize
    ensures { result ≤ 1 }
{
    let mut out = [0u8; 8];
    let flat = put_flat(line, canvas.width, canvas.height, SAMPLE, SAMPLE);
    let asked = put_asked(line, flat, LAMBDA, out.len(), 0);
    let end = write_plane(canvas, source, reference, book, codebook, &mut out, recon);
    let all = put_written(line, asked, end, &out);
    print_line(rt, line, all)
}

// The card of a width, whose macroblocks take a row of 16 samples each.
fn print_width(
    rt: &impl Print,
    line: &mut [u8],
    book: &[u8],
    codebook: &[u8],
    width: usize,
) -> usize
    requires { width ≤ 1025 }
    ensures { result ≤ 1 }
{
    let source = [SAMPLE; 1025];
    let reference = [SAMPLE; 16640];
    let mut recon = [0u8; 16640];
    let canvas = Svq1PlaneCanvas {
        width,
        height: 1,
        stride: 16 * ((width + 15) / 16),
        rows: 16,
    };
    let samples = canvas.stride * canvas.rows;
    print_plane(
        rt,
        line,
        canvas,
        &source[..width],
        &reference[..samples],
        book,
        codebook,
        &mut recon[..samples],
    )
}

// Width 1,024, and one more: all else is of the right size.
pub fn print_planes(rt: &impl Print, line: &mut [u8], book: &[u8], codebook: &[u8]) -> usize
    ensures { result ≤ 2 }
{
    let largest = print_width(rt, line, book, codebook, 1024);
    largest + print_width(rt, line, book, codebook, 1025)
}
