// A plane, written: its refusals, and its macroblocks one behind the other.
ghost use Rattle.std.specs.Prelude.{◌≡◌, [], ◌∷◌, ◌*◌, length};
ghost use Rattle.bits.specs.Refusals.{refused_by};
ghost use Rattle.book.specs.Book.{codebook_bytes};
ghost use Rattle.macroblock_choice.specs.ChosenNeeds.{task_in};
ghost use Rattle.macroblock.specs.MacroblockNeeds.{given_by};
ghost use Rattle.macroblock.specs.Mode.{mode_position};
ghost use Rattle.plane.specs.Refusals.{write_refusal_by};
ghost use Rattle.plane.specs.PlaneNeeds.{PlaneReady, PlaneAccepted};
ghost use Rattle.macroblock_enc.specs.LimitForms.{limit_of, Spends};
ghost use Rattle.plane_enc.specs.Stated.{told, ToldThrough};
ghost use Rattle.macroblock.specs.Slices.{slices_by, lent_by};

use super::super::svq1_enc_inter::WriteEnd;
use bits::refusal::Refusal;
use book::inner::CODEBOOK_BYTES;
use canvas::svq1_plane::{Svq1PlaneCanvas, check_source};
use codebook::svq1_codebook::inner::raise_codebook;
use macroblock::svq1_enc_inter::{Settings, Svq1MbMode};
use macroblock_enc::svq1_enc_inter::inner::limit::BitLimit;
use macroblock_enc::svq1_enc_inter::inner::writing::write_macroblock;
use plane::svq1_plane::inner::{SliceLengths, check_lent};

// The refusals of the writer, lowest number first, 20 and 21 behind the others. The source, the output and the result slices are given by their lengths.
pub fn check_write(
    canvas: Svq1PlaneCanvas,
    source: usize,
    reference: &[u8],
    book: &[u8],
    codebook: &[u8],
    bytes: usize,
    start: usize,
    slices: SliceLengths,
) -> Result<(), Refusal>
    ensures { refused_by result ≡ write_refusal_by (given_by canvas reference.now book.now codebook.now) source bytes start slices }
{
    check_source(canvas, source, reference)?;
    check_lent(canvas, book, codebook, bytes, start, slices)
}

// A macroblock's mode, bits and error at its place, where the slice has room for all three.
fn tell(stated: &mut [u32], k: usize, mode: Svq1MbMode, bits: u32, error: u32)
    ensures { stated.new ≡ told stated.old k (mode_position mode ∷ bits ∷ error ∷ []) }
{
    let position = mode.position();
    if stated.len() / 3 <= k {
        return;
    }
    let at = 3 * k;
    stated[at] = position as u32;
    stated[at + 1] = bits;
    stated[at + 2] = error;
}

// A plane that no refusal meets, written from bit `start` on under a limit, macroblock by macroblock, each told in `stated`. `raised` is the raised codebook.
fn write_blocks(
    canvas: Svq1PlaneCanvas,
    source: &[u8],
    reference: &[u8],
    book: &[u8],
    codebook: &[u8],
    raised: &[u8],
    settings: Settings,
    limit: Option<BitLimit>,
    out: &mut [u8],
    start: usize,
    recon: &mut [u8],
    vx: &mut [u8],
    vy: &mut [u8],
    stated: &mut [u32],
) -> WriteEnd
    requires { PlaneReady (given_by canvas reference.now book.now codebook.now) raised.now (slices_by recon.old vx.old vy.old) (length out.old) start × (length source.now ≡ canvas.width * canvas.height) × Spends (given_by canvas reference.now book.now codebook.now) limit 0 0 }
    ensures { ToldThrough (given_by canvas reference.now book.now codebook.now) (task_in source.now settings (limit_of limit)) start (lent_by out.old (slices_by recon.old vx.old vy.old)) stated.old result (lent_by out.new (slices_by recon.new vx.new vy.new)) stated.new }
{
    let count = canvas.rows / 16 * (canvas.stride / 16);
    let mut at = start;
    let mut bits = 0;
    let mut error = 0;
    for k in 0..count {
        let r = write_macroblock(
            canvas, source, reference, book, codebook, raised, settings, limit, bits, out, at, k,
            recon, vx, vy,
        );
        if r.refused.is_some() {
            return WriteEnd {
                refused: r.refused,
                done: k,
                next: at,
                bits,
                error,
            };
        }
        let mode = r.mode;
        tell(stated, k, mode, r.bits, r.error);
        at = r.next;
        bits += r.bits as u64;
        error += r.error as u64;
    }
    WriteEnd {
        refused: None,
        done: count,
        next: at,
        bits,
        error,
    }
}

// The same; the codebook is raised into `raised` first.
fn write_raised(
    canvas: Svq1PlaneCanvas,
    source: &[u8],
    reference: &[u8],
    book: &[u8],
    codebook: &[u8],
    settings: Settings,
    limit: Option<BitLimit>,
    out: &mut [u8],
    start: usize,
    recon: &mut [u8],
    vx: &mut [u8],
    vy: &mut [u8],
    stated: &mut [u32],
    raised: &mut [u8],
) -> WriteEnd
    requires { PlaneAccepted (given_by canvas reference.now book.now codebook.now) (slices_by recon.old vx.old vy.old) (length out.old) start × (length source.now ≡ canvas.width * canvas.height) × (length raised.old ≡ codebook_bytes) × Spends (given_by canvas reference.now book.now codebook.now) limit 0 0 }
    ensures { ToldThrough (given_by canvas reference.now book.now codebook.now) (task_in source.now settings (limit_of limit)) start (lent_by out.old (slices_by recon.old vx.old vy.old)) stated.old result (lent_by out.new (slices_by recon.new vx.new vy.new)) stated.new }
{
    raise_codebook(codebook, raised);
    write_blocks(
        canvas, source, reference, book, codebook, raised, settings, limit, out, start, recon, vx,
        vy, stated,
    )
}

// The same with room of its own for the raised codebook.
pub fn write_accepted(
    canvas: Svq1PlaneCanvas,
    source: &[u8],
    reference: &[u8],
    book: &[u8],
    codebook: &[u8],
    settings: Settings,
    limit: Option<BitLimit>,
    out: &mut [u8],
    start: usize,
    recon: &mut [u8],
    vx: &mut [u8],
    vy: &mut [u8],
    stated: &mut [u32],
) -> WriteEnd
    requires { PlaneAccepted (given_by canvas reference.now book.now codebook.now) (slices_by recon.old vx.old vy.old) (length out.old) start × (length source.now ≡ canvas.width * canvas.height) × Spends (given_by canvas reference.now book.now codebook.now) limit 0 0 }
    ensures { ToldThrough (given_by canvas reference.now book.now codebook.now) (task_in source.now settings (limit_of limit)) start (lent_by out.old (slices_by recon.old vx.old vy.old)) stated.old result (lent_by out.new (slices_by recon.new vx.new vy.new)) stated.new }
{
    let mut raised = [0u8; CODEBOOK_BYTES];
    write_raised(
        canvas,
        source,
        reference,
        book,
        codebook,
        settings,
        limit,
        out,
        start,
        recon,
        vx,
        vy,
        stated,
        &mut raised,
    )
}
