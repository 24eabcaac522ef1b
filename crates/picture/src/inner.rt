// Functions that only the crates of this repository call. Most have a `requires`: the caller, proved too, meets it.
ghost use Rattle.std.specs.Prelude.{◌≡◌, ◌+◌};
ghost use Rattle.bits.specs.Basics.{or_else};
ghost use Rattle.bits.specs.Refusals.{number_told};
ghost use Rattle.picture.specs.Picture.{canvas_blocks};
ghost use Rattle.picture.specs.Refusals.{plane_refusal_by, allowance_refusal};
ghost use Rattle.picture.specs.PictureNeeds.{behind_others, RefusalsTold, SmallSides, AllowanceReady};

use bits::refusal::Refusal;
use canvas::svq1_plane::Svq1PlaneCanvas;
use macroblock::svq1_enc_inter::Svq1MbMode;
use macroblock_bits::svq1_enc_inter::inner::mb_mode_bits;
use plane::svq1_plane::inner::SliceLengths;
use plane_enc::svq1_enc_inter::inner::check_write;

// What the refusals look at of a plane besides its reference.
#[derive(Clone, Copy)]
pub struct PlaneLengths {
    pub canvas: Svq1PlaneCanvas,
    pub source: usize,
    pub slices: SliceLengths,
}

// The refusal of each plane's checks, where those before it pass, and that of the picture.
#[derive(Clone, Copy)]
pub struct PictureRefusals {
    pub first: Option<Refusal>,
    pub second: Option<Refusal>,
    pub third: Option<Refusal>,
    pub picture: Option<Refusal>,
}

// Of two refusals the first, where it is one.
pub fn first_of(a: Option<Refusal>, b: Option<Refusal>) -> Option<Refusal>
    ensures { number_told result ≡ or_else (number_told a) (number_told b) }
{
    a.or(b)
}

// The macroblocks of a plane.
pub fn blocks_of(canvas: Svq1PlaneCanvas) -> u64
    requires { SmallSides canvas }
    ensures { result ≡ canvas_blocks canvas }
{
    ((canvas.height + 15) / 16 * ((canvas.width + 15) / 16)) as u64
}

// All checks of a plane, behind those before it.
fn next_refusal(
    before: Option<Refusal>,
    p: PlaneLengths,
    reference: &[u8],
    book: &[u8],
    codebook: &[u8],
    bytes: usize,
    start: usize,
) -> Option<Refusal>
    ensures { number_told result ≡ behind_others (number_told before) (plane_refusal_by p reference.now book.now codebook.now bytes start) }
{
    if before.is_some() {
        return None;
    }
    let canvas = p.canvas;
    let slices = p.slices;
    check_write(
        canvas, p.source, reference, book, codebook, bytes, start, slices,
    )
    .err()
}

// 31, behind the checks of the planes.
fn allowance_refusal(
    before: Option<Refusal>,
    canvas0: Svq1PlaneCanvas,
    canvas1: Svq1PlaneCanvas,
    canvas2: Svq1PlaneCanvas,
    book: &[u8],
    allowance: u64,
) -> Option<Refusal>
    requires { number_told before ≡ 0 → AllowanceReady book.now canvas0 canvas1 canvas2 }
    ensures { number_told result ≡ behind_others (number_told before) (allowance_refusal book.now (canvas_blocks canvas0 + (canvas_blocks canvas1 + canvas_blocks canvas2)) allowance) }
{
    if before.is_some() {
        return None;
    }
    let skip = mb_mode_bits(book, Svq1MbMode::Skip);
    let blocks = blocks_of(canvas0) + (blocks_of(canvas1) + blocks_of(canvas2));
    if skip as u64 * blocks <= allowance {
        return None;
    }
    Some(Refusal::Allowance)
}

// The refusals of a picture: the planes in turn, each through all its checks, then 31.
pub fn picture_refusals(
    p0: PlaneLengths,
    p1: PlaneLengths,
    p2: PlaneLengths,
    reference0: &[u8],
    reference1: &[u8],
    reference2: &[u8],
    book: &[u8],
    codebook: &[u8],
    bytes: usize,
    start: usize,
    allowance: u64,
) -> PictureRefusals
    ensures { RefusalsTold (plane_refusal_by p0 reference0.now book.now codebook.now bytes start) (plane_refusal_by p1 reference1.now book.now codebook.now bytes start) (plane_refusal_by p2 reference2.now book.now codebook.now bytes start) (allowance_refusal book.now (canvas_blocks p0.canvas + (canvas_blocks p1.canvas + canvas_blocks p2.canvas)) allowance) result }
{
    let first = next_refusal(None, p0, reference0, book, codebook, bytes, start);
    let second = next_refusal(first, p1, reference1, book, codebook, bytes, start);
    let two = first_of(first, second);
    let third = next_refusal(two, p2, reference2, book, codebook, bytes, start);
    let planes = first_of(two, third);
    let canvas0 = p0.canvas;
    let canvas1 = p1.canvas;
    let canvas2 = p2.canvas;
    let short = allowance_refusal(planes, canvas0, canvas1, canvas2, book, allowance);
    PictureRefusals {
        first,
        second,
        third,
        picture: first_of(planes, short),
    }
}
