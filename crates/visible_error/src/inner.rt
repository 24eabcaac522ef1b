// Functions that only the crates of this repository call. Each has a `requires`: the caller, proved too, meets it.
ghost use Rattle.std.specs.Prelude.{◌≡◌, ◌+◌, ◌*◌, ◌<◌, ◌≤◌};
ghost use Rattle.bits.specs.Basics.{sum};
ghost use Rattle.visible_error.specs.Visible.{square_at, inside_from, visible_error, visible_total};
ghost use Rattle.visible_error.specs.VisibleNeeds.{shown_by, shown_blocks, Showable};

use canvas::svq1_plane::inner::blocks_along;
use canvas::svq1_plane::{MB_DIM, Svq1PlaneCanvas};
use leaf_samples::svq1_enc_leaf::inner::distance_of;

// How many of a macroblock's columns or rows from `from` on lie inside a side.
fn cut(side: usize, from: usize) -> usize
    requires { from ≤ side }
    ensures { result ≡ inside_from side from }
{
    (side - from).min(MB_DIM)
}

// The squared error of n samples of row y from column x on.
fn row_error(
    canvas: Svq1PlaneCanvas,
    source: &[u8],
    recon: &[u8],
    x: usize,
    y: usize,
    n: usize,
) -> u32
    requires { Showable (shown_by canvas source.now recon.now) × (n ≤ 16) × (x + n ≤ canvas.width) × (y < canvas.height) }
    ensures { (result ≡ sum (λ i. square_at (shown_by canvas source.now recon.now) (x + i) y) n) × (result ≤ 65025 * n) }
{
    let a = y * canvas.width + x;
    let b = y * canvas.stride + x;
    distance_of(&source[a..a + n], &recon[b..b + n])
}

// The same of m rows from row y on.
fn rows_error(
    canvas: Svq1PlaneCanvas,
    source: &[u8],
    recon: &[u8],
    x: usize,
    y: usize,
    n: usize,
    m: usize,
) -> u32
    requires { Showable (shown_by canvas source.now recon.now) × (n ≤ 16) × (m ≤ 16) × (x + n ≤ canvas.width) × (y + m ≤ canvas.height) }
    ensures { (result ≡ sum (λ j. sum (λ i. square_at (shown_by canvas source.now recon.now) (x + i) (y + j)) n) m) × (result ≤ 16646400) }
{
    (0..m)
        .map(|j| row_error(canvas, source, recon, x, y + j, n))
        .sum()
}

// The squared error of macroblock k over its visible samples.
pub fn visible_block(canvas: Svq1PlaneCanvas, source: &[u8], recon: &[u8], k: usize) -> u32
    requires { Showable (shown_by canvas source.now recon.now) × (k < shown_blocks (shown_by canvas source.now recon.now)) }
    ensures { (result ≡ visible_error (shown_by canvas source.now recon.now) k) × (result ≤ 16646400) }
{
    let cols = blocks_along(canvas.width);
    let x = MB_DIM * (k % cols);
    let y = MB_DIM * (k / cols);
    let n = cut(canvas.width, x);
    let m = cut(canvas.height, y);
    rows_error(canvas, source, recon, x, y, n, m)
}

// The same of all macroblocks.
pub fn visible_total(canvas: Svq1PlaneCanvas, source: &[u8], recon: &[u8]) -> u64
    requires { Showable (shown_by canvas source.now recon.now) }
    ensures { result ≡ visible_total (shown_by canvas source.now recon.now) }
{
    (0..blocks_along(canvas.height) * blocks_along(canvas.width))
        .map(|k| u64::from(visible_block(canvas, source, recon, k)))
        .sum()
}
