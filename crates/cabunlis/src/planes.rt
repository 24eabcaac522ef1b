// The plane writer and the plane reader.
ghost use Rattle.std.specs.Prelude.{not, ◌≡◌, eqb};
ghost use Rattle.bits.specs.Basics.{pick};
ghost use Rattle.bits.specs.Refusals.{number_told};
ghost use Rattle.macroblock.specs.MacroblockNeeds.{given_by};
ghost use Rattle.macroblock_choice.specs.ChosenNeeds.{task_by};
ghost use Rattle.plane.specs.Refusals.{mid_plane};
ghost use Rattle.plane_enc.specs.WriterNeeds.{write_end_of};
ghost use Rattle.cabunlis.specs.Host.{settings_of, host_answer, HostWritten, HostStated, HostRead};
ghost use Rattle.macroblock.specs.Slices.{slices_by, lent_by};

use bits::refusal::{Refusal, number_told};
use canvas::svq1_plane::Svq1PlaneCanvas;
use macroblock::svq1_enc_inter::Settings;
use plane_dec::svq1_plane::decode_inter_plane;
use plane_enc::svq1_enc_inter::{WriteEnd, encode_inter_plane, encode_inter_plane_stated};

// What a plane call answers. The reader's totals are 0.
#[repr(C)]
#[derive(Drop)]
pub struct HostAnswer {
    pub refusal: u32,
    pub macroblock: usize,
    pub done: usize,
    pub next: usize,
    pub bits: u64,
    pub error: u64,
}

// The index of the macroblock at which a refusal came, by the refusal's number; 0 for every number that does not come in the middle of a plane.
#[tactic(auto, unfolding(plane::specs::Refusals::mid_plane))]
pub fn index_of(refused: u8, done: usize) -> usize
    ensures { result ≡ pick (mid_plane refused) done 0 }
{
    match refused {
        10 | 11 | 22 | 24 => done,
        _ => 0,
    }
}

// The answer with the macroblock's index where it has one.
fn answer(refused: Option<Refusal>, done: usize, next: usize, bits: u64, error: u64) -> HostAnswer
    ensures { result ≡ host_answer (record { refusal = number_told refused; done = done; next = next; bits = bits; error = error }) }
{
    HostAnswer {
        refusal: number_told(refused) as u32,
        macroblock: index_of(number_told(refused), done),
        done,
        next,
        bits,
        error,
    }
}

// That of the writer.
pub fn plane_answer(e: WriteEnd) -> HostAnswer
    ensures { result ≡ host_answer (write_end_of e) }
{
    answer(e.refused, e.done, e.next, e.bits, e.error)
}

// C has no flag that holds 0 and 1 alone: every number but 0 is set.
fn tries_four(four: u8) -> bool
    ensures { result ≡ not (eqb four 0) }
{
    four != 0
}

// The settings by a C host's numbers.
pub fn settings_of(lambda: u64, radius: u8, four: u8, margin: u32) -> Settings
    ensures { result ≡ settings_of lambda radius four margin }
{
    Settings {
        lambda,
        radius,
        four: tries_four(four),
        margin,
    }
}

// Writes a plane; four vectors are tried unless `four` is 0.
#[unsafe(no_mangle)]
pub extern "C" fn cabunlis2_encode_inter_plane(
    width: usize,
    height: usize,
    stride: usize,
    rows: usize,
    source: &[u8],
    reference: &[u8],
    book: &[u8],
    codebook: &[u8],
    lambda: u64,
    radius: u8,
    four: u8,
    margin: u32,
    out: &mut [u8],
    start: usize,
    recon: &mut [u8],
    vx: &mut [u8],
    vy: &mut [u8],
) -> HostAnswer
    ensures { HostWritten (given_by (record { width = width; height = height; stride = stride; rows = rows }) reference.now book.now codebook.now) (task_by source.now (settings_of lambda radius four margin)) start (lent_by out.old (slices_by recon.old vx.old vy.old)) result (lent_by out.new (slices_by recon.new vx.new vy.new)) }
{
    let canvas = Svq1PlaneCanvas {
        width,
        height,
        stride,
        rows,
    };
    let settings = settings_of(lambda, radius, four, margin);
    let e = encode_inter_plane(
        canvas, source, reference, book, codebook, settings, out, start, recon, vx, vy,
    );
    plane_answer(e)
}

// The same, and each macroblock's mode, bits and error told in `stated`.
#[unsafe(no_mangle)]
pub extern "C" fn cabunlis2_encode_inter_plane_stated(
    width: usize,
    height: usize,
    stride: usize,
    rows: usize,
    source: &[u8],
    reference: &[u8],
    book: &[u8],
    codebook: &[u8],
    lambda: u64,
    radius: u8,
    four: u8,
    margin: u32,
    out: &mut [u8],
    start: usize,
    recon: &mut [u8],
    vx: &mut [u8],
    vy: &mut [u8],
    stated: &mut [u32],
) -> HostAnswer
    ensures { HostStated (given_by (record { width = width; height = height; stride = stride; rows = rows }) reference.now book.now codebook.now) (task_by source.now (settings_of lambda radius four margin)) start (lent_by out.old (slices_by recon.old vx.old vy.old)) stated.old result (lent_by out.new (slices_by recon.new vx.new vy.new)) stated.new }
{
    let canvas = Svq1PlaneCanvas {
        width,
        height,
        stride,
        rows,
    };
    let settings = settings_of(lambda, radius, four, margin);
    let e = encode_inter_plane_stated(
        canvas, source, reference, book, codebook, settings, out, start, recon, vx, vy, stated,
    );
    plane_answer(e)
}

// Reads a plane.
#[unsafe(no_mangle)]
pub extern "C" fn cabunlis2_decode_inter_plane(
    width: usize,
    height: usize,
    stride: usize,
    rows: usize,
    reference: &[u8],
    book: &[u8],
    codebook: &[u8],
    bytes: &[u8],
    start: usize,
    recon: &mut [u8],
    vx: &mut [u8],
    vy: &mut [u8],
) -> HostAnswer
    ensures { HostRead (given_by (record { width = width; height = height; stride = stride; rows = rows }) reference.now book.now codebook.now) bytes.now start (slices_by recon.old vx.old vy.old) result (slices_by recon.new vx.new vy.new) }
{
    let canvas = Svq1PlaneCanvas {
        width,
        height,
        stride,
        rows,
    };
    let e = decode_inter_plane(
        canvas, reference, book, codebook, bytes, start, recon, vx, vy,
    );
    answer(e.refused, e.done, e.next, 0, 0)
}
