// The plane writer.
pub mod inner;

ghost use Rattle.macroblock_choice.specs.ChosenNeeds.{task_by};
ghost use Rattle.macroblock.specs.MacroblockNeeds.{given_by};
ghost use Rattle.plane.specs.Calls.{PlaneWritten};
ghost use Rattle.plane_enc.specs.Stated.{PlaneStated};
ghost use Rattle.plane_enc.specs.WriterNeeds.{write_end_of};
ghost use Rattle.macroblock.specs.Slices.{slices_by, lent_by};

use super::svq1_enc_inter::inner::{check_write, write_accepted};
use bits::refusal::Refusal;
use canvas::svq1_plane::Svq1PlaneCanvas;
use macroblock::svq1_enc_inter::Settings;
use plane::svq1_plane::inner::SliceLengths;

// What writing a plane answers: a refusal, if one is met; the macroblocks done, which with `NoRoom` is the index of the one that does not fit;
// the next bit; and the bits and the squared error of the macroblocks done.
#[derive(Clone, Copy)]
pub struct WriteEnd {
    pub refused: Option<Refusal>,
    pub done: usize,
    pub next: usize,
    pub bits: u64,
    pub error: u64,
}

// An inter plane, written from bit `start` of `out` on against a reference whose canvas is given: its samples as a reader shows them into `recon`,
// and its block vectors, a byte a component, into `vx` and `vy`. A plane that ends early leaves the macroblocks before that one; a refused call leaves
// everything lent as it was.
pub fn encode_inter_plane(
    canvas: Svq1PlaneCanvas,
    source: &[u8],
    reference: &[u8],
    book: &[u8],
    codebook: &[u8],
    settings: Settings,
    out: &mut [u8],
    start: usize,
    recon: &mut [u8],
    vx: &mut [u8],
    vy: &mut [u8],
) -> WriteEnd
    ensures { PlaneWritten (given_by canvas reference.now book.now codebook.now) (task_by source.now settings) start (lent_by out.old (slices_by recon.old vx.old vy.old)) (write_end_of result) (lent_by out.new (slices_by recon.new vx.new vy.new)) }
{
    let mut none = [0u32; 1];
    encode_inter_plane_stated(
        canvas, source, reference, book, codebook, settings, out, start, recon, vx, vy, &mut none,
    )
}

// The same, and told in `stated` for each macroblock done: its mode's position in the mode table, its bits and its error, three numbers a macroblock, as far as
// there is room for all three.
pub fn encode_inter_plane_stated(
    canvas: Svq1PlaneCanvas,
    source: &[u8],
    reference: &[u8],
    book: &[u8],
    codebook: &[u8],
    settings: Settings,
    out: &mut [u8],
    start: usize,
    recon: &mut [u8],
    vx: &mut [u8],
    vy: &mut [u8],
    stated: &mut [u32],
) -> WriteEnd
    ensures { PlaneStated (given_by canvas reference.now book.now codebook.now) (task_by source.now settings) start (lent_by out.old (slices_by recon.old vx.old vy.old)) stated.old (write_end_of result) (lent_by out.new (slices_by recon.new vx.new vy.new)) stated.new }
{
    let slices = SliceLengths {
        recon: recon.len(),
        vx: vx.len(),
        vy: vy.len(),
    };
    let checked = check_write(
        canvas,
        source.len(),
        reference,
        book,
        codebook,
        out.len(),
        start,
        slices,
    );
    match checked {
        Ok(()) => write_accepted(
            canvas, source, reference, book, codebook, settings, None, out, start, recon, vx, vy,
            stated,
        ),
        Err(refusal) => WriteEnd {
            refused: Some(refusal),
            done: 0,
            next: 0,
            bits: 0,
            error: 0,
        },
    }
}
