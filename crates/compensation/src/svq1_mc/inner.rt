// Samples and blocks moved by a vector in half samples.
ghost use Rattle.std.specs.Prelude.{◌≡◌, ◌<◌, ◌≤◌, ◌*◌, ◌+◌, length, get_or};
ghost use Rattle.compensation.specs.Compensation.{clamp_to, sample_at, half_sample, moved_block, mean2 as meanOf2, mean4 as meanOf4};
ghost use Rattle.mv_cache.specs.Grid.{row_set};
ghost use Rattle.compensation.specs.RowForms.{cell};
ghost use Rattle.compensation.specs.MovedForms.{moved_part, Parts, Placed, down, down_half, down_mv, up_end, Lifted, InCanvas, cell_part, inside_up};

use super::super::svq1_enc_inter::inner::{mean2, mean4};
use mv_cache::svq1_mv_cache::inner::copy_row;
use vectors::svq1_motion_predictor::Svq1Mv;

// A place raised by 2^31, clamped to 0 .. size - 1.
fn clamped(n: usize, size: usize) -> usize
    requires { 0 < size }
    ensures { (result ≡ clamp_to size (down_half n)) × (result < size) }
{
    n.saturating_sub(2147483648).min(size - 1)
}

// The sample at a place, both numbers raised by 2^31; reads clamp to the canvas.
#[tactic(auto, unfolding(crate::specs::Compensation::sample_at))]
fn sample_clamped(reference: &[u8], stride: usize, rows: usize, x: usize, y: usize) -> u8
    requires { (0 < stride) × (0 < rows) × (length reference.now ≡ stride * rows) }
    ensures { result ≡ sample_at (record { samples = reference.now; stride = stride; rows = rows }) (down_half x) (down_half y) }
{
    let cx = clamped(x, stride);
    let cy = clamped(y, rows);
    reference[cy * stride + cx]
}

// The sample at a place in half samples, both numbers raised by 2^32.
#[tactic(auto, using(crate::specs::MovedFormsLaws::half_is))]
pub fn sample_halfpel(reference: &[u8], stride: usize, rows: usize, hx: usize, hy: usize) -> u8
    requires { (0 < stride) × (0 < rows) × (length reference.now ≡ stride * rows) × (hx < up_end) × (hy < up_end) }
    ensures { result ≡ half_sample (record { samples = reference.now; stride = stride; rows = rows }) (down hx) (down hy) }
{
    let x = hx / 2;
    let y = hy / 2;
    let a = sample_clamped(reference, stride, rows, x, y);
    if hx % 2 == 0 {
        if hy % 2 == 0 {
            return a;
        }
        return mean2(a, sample_clamped(reference, stride, rows, x, y + 1));
    }
    let b = sample_clamped(reference, stride, rows, x + 1, y);
    if hy % 2 == 0 {
        return mean2(a, b);
    }
    let c = sample_clamped(reference, stride, rows, x, y + 1);
    let d = sample_clamped(reference, stride, rows, x + 1, y + 1);
    mean4(a, b, c, d)
}

// A component raised by 2^32.
fn lift(z: i32) -> usize
    ensures { Lifted z result }
{
    (i64::from(z) + 4294967296) as usize
}

// Part q of a macroblock's samples, each read by itself.
fn part_clamped(
    out: &mut [u8; 256],
    reference: &[u8],
    stride: usize,
    rows: usize,
    x: usize,
    y: usize,
    ux: usize,
    uy: usize,
    s: usize,
    cols: usize,
    q: usize,
)
    requires { Placed (record { samples = reference.now; stride = stride; rows = rows }) x y × Parts s cols q × (ux ≤ 6442450944) × (uy ≤ 6442450944) }
    ensures { out.new ≡ moved_part (record { samples = reference.now; stride = stride; rows = rows }) x y (down_mv ux uy) s cols q out.old }
{
    for j in 0..s * s {
        let i = (q / cols * s + j / s) * (s * cols) + (q % cols * s + j % s);
        out[i] = sample_halfpel(
            reference,
            stride,
            rows,
            2 * (x + i % 16) + ux,
            2 * (y + i / 16) + uy,
        );
    }
}

// n samples from place o on: the means of those from a and from b on, and of those from a, b and from one place further on each.
#[tactic(auto, using(mv_cache::specs::PutLaws::row_none, mv_cache::specs::PutLaws::row_more))]
fn mean_row(out: &mut [u8; 256], reference: &[u8], o: usize, a: usize, b: usize, n: usize)
    requires { (o + n ≤ 256) × (a + n ≤ length reference.now) × (b + n ≤ length reference.now) }
    ensures { out.new ≡ row_set o (λ k. meanOf2 (get_or reference.now (a + k) 0) (get_or reference.now (b + k) 0)) n out.old }
{
    for i in 0..n {
        out[o + i] = mean2(reference[a + i], reference[b + i]);
    }
}

#[tactic(auto, using(mv_cache::specs::PutLaws::row_none, mv_cache::specs::PutLaws::row_more))]
fn mean4_row(out: &mut [u8; 256], reference: &[u8], o: usize, a: usize, b: usize, n: usize)
    requires { (o + n ≤ 256) × (a + 1 + n ≤ length reference.now) × (b + 1 + n ≤ length reference.now) }
    ensures { out.new ≡ row_set o (λ k. meanOf4 (get_or reference.now (a + k) 0) (get_or reference.now (a + 1 + k) 0) (get_or reference.now (b + k) 0) (get_or reference.now (b + 1 + k) 0)) n out.old }
{
    for i in 0..n {
        out[o + i] = mean4(
            reference[a + i],
            reference[a + 1 + i],
            reference[b + i],
            reference[b + 1 + i],
        );
    }
}

// One row of a part, read at p between columns and rows as ox and oy say.
#[tactic(auto, unfolding(crate::specs::RowForms::cell))]
fn part_row(
    out: &mut [u8; 256],
    reference: &[u8],
    o: usize,
    p: usize,
    stride: usize,
    rows: usize,
    n: usize,
    ox: usize,
    oy: usize,
)
    requires { (o + n ≤ 256) × (ox < 2) × (oy < 2) × (p + oy * stride + ox + n ≤ length reference.now) }
    ensures { out.new ≡ row_set o (λ k. cell (record { samples = reference.now; stride = stride; rows = rows }) ox oy (p + k)) n out.old }
{
    match (ox, oy) {
        (0, 0) => copy_row(out, reference, o, p, n),
        (_, 0) => mean_row(out, reference, o, p, p + 1, n),
        (0, _) => mean_row(out, reference, o, p, p + stride, n),
        _ => mean4_row(out, reference, o, p, p + stride, n),
    }
}

// Part q of a macroblock's samples, row by row, where every read lies in the canvas: its corner is read at x0, y0.
fn part_inside(
    out: &mut [u8; 256],
    reference: &[u8],
    stride: usize,
    rows: usize,
    x0: usize,
    y0: usize,
    ox: usize,
    oy: usize,
    s: usize,
    cols: usize,
    q: usize,
)
    requires { InCanvas (record { samples = reference.now; stride = stride; rows = rows }) s ox oy x0 y0 × Parts s cols q }
    ensures { out.new ≡ cell_part (record { samples = reference.now; stride = stride; rows = rows }) ox oy x0 y0 s cols q out.old }
{
    for i in 0..s {
        let o = (q / cols * s + i) * (s * cols) + q % cols * s;
        let p = (y0 + i) * stride + x0;
        part_row(out, reference, o, p, stride, rows, s, ox, oy);
    }
}

// On one axis, whether a part of side s that is read from the half-sample place h, raised by 2^32, lies in the canvas.
fn inside(h: usize, s: usize, size: usize) -> bool
    requires { (h < up_end) × (s ≤ 16) }
    ensures { result ≡ inside_up h s size }
{
    4294967296 <= h && h / 2 - 2147483648 + h % 2 + s <= size
}

// Part q of the macroblock at (x, y), moved by a vector; the other samples stay.
fn mc_part(
    out: &mut [u8; 256],
    reference: &[u8],
    stride: usize,
    rows: usize,
    x: usize,
    y: usize,
    v: Svq1Mv,
    s: usize,
    cols: usize,
    q: usize,
)
    requires { Placed (record { samples = reference.now; stride = stride; rows = rows }) x y × Parts s cols q }
    ensures { out.new ≡ moved_part (record { samples = reference.now; stride = stride; rows = rows }) x y v s cols q out.old }
{
    let ux = lift(v.x);
    let uy = lift(v.y);
    let hx = 2 * (x + q % cols * s) + ux;
    let hy = 2 * (y + q / cols * s) + uy;
    if inside(hx, s, stride) && inside(hy, s, rows) {
        part_inside(
            out,
            reference,
            stride,
            rows,
            hx / 2 - 2147483648,
            hy / 2 - 2147483648,
            hx % 2,
            hy % 2,
            s,
            cols,
            q,
        );
    } else {
        part_clamped(out, reference, stride, rows, x, y, ux, uy, s, cols, q);
    }
}

// The macroblock at (x, y), moved by a vector.
pub fn mc_macroblock(
    out: &mut [u8; 256],
    reference: &[u8],
    stride: usize,
    rows: usize,
    x: usize,
    y: usize,
    v: Svq1Mv,
)
    requires { Placed (record { samples = reference.now; stride = stride; rows = rows }) x y × (length out.old ≡ 256) }
    ensures { out.new ≡ moved_block (record { samples = reference.now; stride = stride; rows = rows }) 16 x y v }
{
    mc_part(out, reference, stride, rows, x, y, v, 16, 1, 0);
}

// Its 8x8 quarter q, in raster order, moved by a vector; the other samples stay. Four of them make a macroblock of four vectors.
pub fn mc_quarter(
    out: &mut [u8; 256],
    reference: &[u8],
    stride: usize,
    rows: usize,
    x: usize,
    y: usize,
    v: Svq1Mv,
    q: usize,
)
    requires { Placed (record { samples = reference.now; stride = stride; rows = rows }) x y × (q < 4) }
    ensures { out.new ≡ moved_part (record { samples = reference.now; stride = stride; rows = rows }) x y v 8 2 q out.old }
{
    mc_part(out, reference, stride, rows, x, y, v, 8, 2, q);
}
