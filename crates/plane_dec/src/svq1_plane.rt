// The plane reader.
pub mod inner;

ghost use Rattle.macroblock.specs.MacroblockNeeds.{given_by};
ghost use Rattle.macroblock.specs.Slices.{slices_by};
ghost use Rattle.plane.specs.Calls.{PlaneRead};
ghost use Rattle.plane_dec.specs.ReaderNeeds.{read_end_of};

use super::svq1_plane::inner::{check_read, read_accepted};
use bits::refusal::Refusal;
use canvas::svq1_plane::Svq1PlaneCanvas;
use plane::svq1_plane::inner::SliceLengths;

// What reading a plane answers: why it was refused or ended early, if it was; the macroblocks done, which in the middle of a plane is the
// index of the one refused; and the next bit.
#[derive(Clone, Copy)]
pub struct ReadEnd {
    pub refused: Option<Refusal>,
    pub done: usize,
    pub next: usize,
}

// An inter plane, read from bit `start` of the bit string against a reference whose canvas is given: its samples into `recon`, and its block
// vectors, a byte a component, into `vx` and `vy`. A plane that ends early leaves the macroblocks before that one; a refused call leaves the slices as they were.
pub fn decode_inter_plane(
    canvas: Svq1PlaneCanvas,
    reference: &[u8],
    book: &[u8],
    codebook: &[u8],
    bytes: &[u8],
    start: usize,
    recon: &mut [u8],
    vx: &mut [u8],
    vy: &mut [u8],
) -> ReadEnd
    ensures { PlaneRead (given_by canvas reference.now book.now codebook.now) bytes.now start (slices_by recon.old vx.old vy.old) (read_end_of result) (slices_by recon.new vx.new vy.new) }
{
    let slices = SliceLengths {
        recon: recon.len(),
        vx: vx.len(),
        vy: vy.len(),
    };
    let checked = check_read(
        canvas,
        reference,
        book,
        codebook,
        bytes.len(),
        start,
        slices,
    );
    if let Err(refusal) = checked {
        return ReadEnd {
            refused: Some(refusal),
            done: 0,
            next: 0,
        };
    }
    read_accepted(
        canvas, reference, book, codebook, bytes, start, recon, vx, vy,
    )
}
