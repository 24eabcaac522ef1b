// Planes and their canvases, and refusals 1 to 4.
pub mod inner;

ghost use Rattle.std.specs.Prelude.{◌≡◌, ◌≤◌};
ghost use Rattle.bits.specs.Basics.{or_else, first_of};
ghost use Rattle.bits.specs.Refusals.{refused_by};
ghost use Rattle.canvas.specs.Canvas.{largest_side, padded16, side_ok, size_refusal, canvas_refusal, source_links};

use bits::refusal::Refusal;

// The side of a macroblock in samples.
pub const MB_DIM: usize = 16;

// The largest width or height of a plane.
pub const LARGEST_SIDE: usize = 1024;

// A plane's size, and that of its canvas: the size rounded up to whole macroblocks. Its samples are lent beside it.
#[derive(Clone, Copy)]
pub struct Svq1PlaneCanvas {
    pub width: usize,
    pub height: usize,
    pub stride: usize,
    pub rows: usize,
}

fn side_ok(n: usize) -> bool
    ensures { result ≡ side_ok n }
{
    1 <= n && n <= LARGEST_SIDE
}

// Refuses a width or height of 0 or above the largest.
pub fn check_size(width: usize, height: usize) -> Result<(), Refusal>
    ensures { refused_by result ≡ size_refusal width height }
{
    if !side_ok(width) || !side_ok(height) {
        return Err(Refusal::PlaneSize);
    }
    Ok(())
}

fn rounded_up(n: usize) -> usize
    requires { n ≤ largest_side }
    ensures { (result ≡ padded16 n) × (result ≤ padded16 largest_side) }
{
    MB_DIM * ((n + (MB_DIM - 1)) / MB_DIM)
}

// Of a canvas for a size that passes.
fn check_canvas(
    reference: &[u8],
    width: usize,
    height: usize,
    stride: usize,
    rows: usize,
) -> Result<(), Refusal>
    requires { (width ≤ largest_side) × (height ≤ largest_side) }
    ensures { refused_by result ≡ canvas_refusal width height (record { samples = reference.now; stride = stride; rows = rows }) }
{
    if stride != rounded_up(width) || rows != rounded_up(height) {
        return Err(Refusal::CanvasSize);
    }
    if reference.len() != stride * rows {
        return Err(Refusal::ReferenceLength);
    }
    Ok(())
}

// Refuses a plane and its canvas.
pub fn check_plane(
    reference: &[u8],
    width: usize,
    height: usize,
    stride: usize,
    rows: usize,
) -> Result<(), Refusal>
    ensures { refused_by result ≡ or_else (size_refusal width height) (canvas_refusal width height (record { samples = reference.now; stride = stride; rows = rows })) }
{
    check_size(width, height)?;
    check_canvas(reference, width, height, stride, rows)
}

// Refuses a plane, its source, of which the length is given, and its reference's canvas.
#[tactic(auto, unfolding(bits::specs::Basics::first_of))]
pub fn check_source(canvas: Svq1PlaneCanvas, source: usize, reference: &[u8]) -> Result<(), Refusal>
    ensures { refused_by result ≡ first_of (source_links canvas.width canvas.height source (record { samples = reference.now; stride = canvas.stride; rows = canvas.rows })) }
{
    let width = canvas.width;
    let height = canvas.height;
    check_size(width, height)?;
    if source != width * height {
        return Err(Refusal::SourceLength);
    }
    check_canvas(reference, width, height, canvas.stride, canvas.rows)
}
