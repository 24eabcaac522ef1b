// A picture that no refusal meets.
ghost use Rattle.std.specs.Prelude.{◌≡◌, [], ◌∷◌, length};
ghost use Rattle.bits.specs.Bits.{bits_of};
ghost use Rattle.bits.specs.Refusals.{number_told};
ghost use Rattle.picture.specs.Picture.{shared_by, results_by, plane_by, handed_by};
ghost use Rattle.picture.specs.Refusals.{picture_refusal};
ghost use Rattle.picture.specs.PictureNeeds.{picture_end_of, NextReady, PlaneThrough, PictureThrough};

use bits::refusal::Refusal;
use canvas::svq1_plane::Svq1PlaneCanvas;
use macroblock::svq1_enc_inter::Settings;
use macroblock_enc::svq1_enc_inter::inner::limit::BitLimit;
use picture::PictureEnd;
use picture::inner::{blocks_of, first_of};
use plane_enc::svq1_enc_inter::WriteEnd;
use plane_enc::svq1_enc_inter::inner::write_accepted;

// A plane behind those before it, inside what they left of the allowance, with so many macroblocks behind it; where one of them ended early, nothing is done.
fn write_next(
    before: Option<Refusal>,
    canvas: Svq1PlaneCanvas,
    source: &[u8],
    reference: &[u8],
    book: &[u8],
    codebook: &[u8],
    settings: Settings,
    remaining: u64,
    behind: u64,
    out: &mut [u8],
    start: usize,
    recon: &mut [u8],
    vx: &mut [u8],
    vy: &mut [u8],
    stated: &mut [u32],
) -> WriteEnd
    requires { NextReady (shared_by book.now codebook.now settings) (plane_by canvas source.now reference.now (results_by recon.old vx.old vy.old stated.old)) behind remaining (length out.old) start }
    ensures { PlaneThrough (shared_by book.now codebook.now settings) (plane_by canvas source.now reference.now (results_by recon.old vx.old vy.old stated.old)) behind (handed_by (bits_of out.old) start remaining (number_told before)) result out.new (results_by recon.new vx.new vy.new stated.new) }
{
    if before.is_some() {
        return WriteEnd {
            refused: None,
            done: 0,
            next: start,
            bits: 0,
            error: 0,
        };
    }
    write_accepted(
        canvas,
        source,
        reference,
        book,
        codebook,
        settings,
        Some(BitLimit {
            allowance: remaining,
            behind,
        }),
        out,
        start,
        recon,
        vx,
        vy,
        stated,
    )
}

// Three planes, each from the bit where the one before it ended.
pub fn write_planes(
    canvas0: Svq1PlaneCanvas,
    source0: &[u8],
    reference0: &[u8],
    canvas1: Svq1PlaneCanvas,
    source1: &[u8],
    reference1: &[u8],
    canvas2: Svq1PlaneCanvas,
    source2: &[u8],
    reference2: &[u8],
    book: &[u8],
    codebook: &[u8],
    settings: Settings,
    allowance: u64,
    out: &mut [u8],
    start: usize,
    recon0: &mut [u8],
    vx0: &mut [u8],
    vy0: &mut [u8],
    stated0: &mut [u32],
    recon1: &mut [u8],
    vx1: &mut [u8],
    vy1: &mut [u8],
    stated1: &mut [u32],
    recon2: &mut [u8],
    vx2: &mut [u8],
    vy2: &mut [u8],
    stated2: &mut [u32],
) -> PictureEnd
    requires { picture_refusal (shared_by book.now codebook.now settings) (plane_by canvas0 source0.now reference0.now (results_by recon0.old vx0.old vy0.old stated0.old) ∷ plane_by canvas1 source1.now reference1.now (results_by recon1.old vx1.old vy1.old stated1.old) ∷ plane_by canvas2 source2.now reference2.now (results_by recon2.old vx2.old vy2.old stated2.old) ∷ []) allowance (length out.old) start ≡ 0 }
    ensures { PictureThrough (shared_by book.now codebook.now settings) (plane_by canvas0 source0.now reference0.now (results_by recon0.old vx0.old vy0.old stated0.old) ∷ plane_by canvas1 source1.now reference1.now (results_by recon1.old vx1.old vy1.old stated1.old) ∷ plane_by canvas2 source2.now reference2.now (results_by recon2.old vx2.old vy2.old stated2.old) ∷ []) (handed_by (bits_of out.old) start allowance 0) (picture_end_of result) out.new (results_by recon0.new vx0.new vy0.new stated0.new ∷ results_by recon1.new vx1.new vy1.new stated1.new ∷ results_by recon2.new vx2.new vy2.new stated2.new ∷ []) }
{
    let last = blocks_of(canvas2);
    let behind = blocks_of(canvas1) + last;
    let first = write_next(
        None, canvas0, source0, reference0, book, codebook, settings, allowance, behind, out,
        start, recon0, vx0, vy0, stated0,
    );
    let remaining = allowance - first.bits;
    let second = write_next(
        first.refused,
        canvas1,
        source1,
        reference1,
        book,
        codebook,
        settings,
        remaining,
        last,
        out,
        first.next,
        recon1,
        vx1,
        vy1,
        stated1,
    );
    let two = first_of(first.refused, second.refused);
    let third = write_next(
        two,
        canvas2,
        source2,
        reference2,
        book,
        codebook,
        settings,
        remaining - second.bits,
        0,
        out,
        second.next,
        recon2,
        vx2,
        vy2,
        stated2,
    );
    PictureEnd {
        refused: first_of(two, third.refused),
        done: first.done + (second.done + third.done),
        first,
        second,
        third,
    }
}
