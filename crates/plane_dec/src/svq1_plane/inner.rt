// Functions that only the crates of this repository call. Most have a `requires`: the caller, proved too, meets it.
ghost use Rattle.std.specs.Prelude.{◌≡◌, length};
ghost use Rattle.bits.specs.Refusals.{refused_by};
ghost use Rattle.book.specs.Book.{codebook_bytes};
ghost use Rattle.macroblock.specs.MacroblockNeeds.{given_by};
ghost use Rattle.macroblock.specs.Slices.{slices_by};
ghost use Rattle.plane.specs.Refusals.{read_refusal_by};
ghost use Rattle.plane.specs.PlaneNeeds.{PlaneReady, PlaneAccepted};
ghost use Rattle.plane_dec.specs.ReaderNeeds.{ReadThrough};

use super::super::svq1_plane::ReadEnd;
use bits::refusal::Refusal;
use book::inner::CODEBOOK_BYTES;
use canvas::svq1_plane::{Svq1PlaneCanvas, check_plane};
use codebook::svq1_codebook::inner::raise_codebook;
use macroblock_dec::svq1_plane::inner::reading::read_macroblock;
use plane::svq1_plane::inner::{SliceLengths, check_lent};

// The refusals of the reader, lowest number first, 20 and 21 behind the others. The bit string and the result slices are given by their lengths.
pub fn check_read(
    canvas: Svq1PlaneCanvas,
    reference: &[u8],
    book: &[u8],
    codebook: &[u8],
    bytes: usize,
    start: usize,
    slices: SliceLengths,
) -> Result<(), Refusal>
    ensures { refused_by result ≡ read_refusal_by (given_by canvas reference.now book.now codebook.now) bytes start slices }
{
    check_plane(
        reference,
        canvas.width,
        canvas.height,
        canvas.stride,
        canvas.rows,
    )?;
    check_lent(canvas, book, codebook, bytes, start, slices)
}

// A plane that no refusal meets, read from bit `start` on, macroblock by macroblock. `raised` is the raised codebook.
fn read_blocks(
    canvas: Svq1PlaneCanvas,
    reference: &[u8],
    book: &[u8],
    codebook: &[u8],
    raised: &[u8],
    bytes: &[u8],
    start: usize,
    recon: &mut [u8],
    vx: &mut [u8],
    vy: &mut [u8],
) -> ReadEnd
    requires { PlaneReady (given_by canvas reference.now book.now codebook.now) raised.now (slices_by recon.old vx.old vy.old) (length bytes.now) start }
    ensures { ReadThrough (given_by canvas reference.now book.now codebook.now) bytes.now start (slices_by recon.old vx.old vy.old) result (slices_by recon.new vx.new vy.new) }
{
    let count = canvas.rows / 16 * (canvas.stride / 16);
    let mut at = start;
    for k in 0..count {
        let read = read_macroblock(
            canvas, reference, book, codebook, raised, bytes, at, k, recon, vx, vy,
        );
        match read {
            Ok(next) => at = next,
            Err(refusal) => {
                return ReadEnd {
                    refused: Some(refusal),
                    done: k,
                    next: at,
                };
            }
        }
    }
    ReadEnd {
        refused: None,
        done: count,
        next: at,
    }
}

// The same; the codebook is raised into `raised` first.
fn read_raised(
    canvas: Svq1PlaneCanvas,
    reference: &[u8],
    book: &[u8],
    codebook: &[u8],
    bytes: &[u8],
    start: usize,
    recon: &mut [u8],
    vx: &mut [u8],
    vy: &mut [u8],
    raised: &mut [u8],
) -> ReadEnd
    requires { PlaneAccepted (given_by canvas reference.now book.now codebook.now) (slices_by recon.old vx.old vy.old) (length bytes.now) start × (length raised.old ≡ codebook_bytes) }
    ensures { ReadThrough (given_by canvas reference.now book.now codebook.now) bytes.now start (slices_by recon.old vx.old vy.old) result (slices_by recon.new vx.new vy.new) }
{
    raise_codebook(codebook, raised);
    read_blocks(
        canvas, reference, book, codebook, raised, bytes, start, recon, vx, vy,
    )
}

// The same with room of its own for the raised codebook.
pub fn read_accepted(
    canvas: Svq1PlaneCanvas,
    reference: &[u8],
    book: &[u8],
    codebook: &[u8],
    bytes: &[u8],
    start: usize,
    recon: &mut [u8],
    vx: &mut [u8],
    vy: &mut [u8],
) -> ReadEnd
    requires { PlaneAccepted (given_by canvas reference.now book.now codebook.now) (slices_by recon.old vx.old vy.old) (length bytes.now) start }
    ensures { ReadThrough (given_by canvas reference.now book.now codebook.now) bytes.now start (slices_by recon.old vx.old vy.old) result (slices_by recon.new vx.new vy.new) }
{
    let mut raised = [0u8; CODEBOOK_BYTES];
    read_raised(
        canvas,
        reference,
        book,
        codebook,
        bytes,
        start,
        recon,
        vx,
        vy,
        &mut raised,
    )
}
