// The writer of pictures.
#![tactic(auto)]

ghost use Rattle.std.specs.Prelude.{◌≡◌, [], ◌∷◌};
ghost use Rattle.picture.specs.Picture.{shared_by, results_by, plane_by};
ghost use Rattle.picture.specs.Calls.{PictureWritten};
ghost use Rattle.picture.specs.PictureNeeds.{picture_end_of, nothing_done};

use bits::refusal::Refusal;
use canvas::svq1_plane::Svq1PlaneCanvas;
use macroblock::svq1_enc_inter::Settings;
use picture::PictureEnd;
use picture::inner::{PlaneLengths, picture_refusals};
use picture_planes::inner::write_planes;
use plane::svq1_plane::inner::SliceLengths;
use plane_enc::svq1_enc_inter::WriteEnd;

// A plane of which nothing is done, with the refusal that it meets, if any.
fn nothing_done(refused: Option<Refusal>) -> WriteEnd
    ensures { result ≡ nothing_done refused }
{
    WriteEnd {
        refused,
        done: 0,
        next: 0,
        bits: 0,
        error: 0,
    }
}

// A picture of three planes, written one behind the other from bit `start` of `out` on, each against a reference of its own, in at most `allowance` bits
// together: a macroblock is written in the best of those modes that leave a SKIP code for each macroblock to come. A picture that ends early leaves the
// macroblocks before that one; a refused call leaves everything lent as it was.
pub fn encode_picture(
    canvas0: Svq1PlaneCanvas,
    source0: &[u8],
    reference0: &[u8],
    canvas1: Svq1PlaneCanvas,
    source1: &[u8],
    reference1: &[u8],
    canvas2: Svq1PlaneCanvas,
    source2: &[u8],
    reference2: &[u8],
    book: &[u8],
    codebook: &[u8],
    settings: Settings,
    allowance: u64,
    out: &mut [u8],
    start: usize,
    recon0: &mut [u8],
    vx0: &mut [u8],
    vy0: &mut [u8],
    stated0: &mut [u32],
    recon1: &mut [u8],
    vx1: &mut [u8],
    vy1: &mut [u8],
    stated1: &mut [u32],
    recon2: &mut [u8],
    vx2: &mut [u8],
    vy2: &mut [u8],
    stated2: &mut [u32],
) -> PictureEnd
    ensures { PictureWritten (shared_by book.now codebook.now settings) (plane_by canvas0 source0.now reference0.now (results_by recon0.old vx0.old vy0.old stated0.old) ∷ plane_by canvas1 source1.now reference1.now (results_by recon1.old vx1.old vy1.old stated1.old) ∷ plane_by canvas2 source2.now reference2.now (results_by recon2.old vx2.old vy2.old stated2.old) ∷ []) allowance out.old start (picture_end_of result) out.new (results_by recon0.new vx0.new vy0.new stated0.new ∷ results_by recon1.new vx1.new vy1.new stated1.new ∷ results_by recon2.new vx2.new vy2.new stated2.new ∷ []) }
{
    let p0 = PlaneLengths {
        canvas: canvas0,
        source: source0.len(),
        slices: SliceLengths {
            recon: recon0.len(),
            vx: vx0.len(),
            vy: vy0.len(),
        },
    };
    let p1 = PlaneLengths {
        canvas: canvas1,
        source: source1.len(),
        slices: SliceLengths {
            recon: recon1.len(),
            vx: vx1.len(),
            vy: vy1.len(),
        },
    };
    let p2 = PlaneLengths {
        canvas: canvas2,
        source: source2.len(),
        slices: SliceLengths {
            recon: recon2.len(),
            vx: vx2.len(),
            vy: vy2.len(),
        },
    };
    let told = picture_refusals(
        p0,
        p1,
        p2,
        reference0,
        reference1,
        reference2,
        book,
        codebook,
        out.len(),
        start,
        allowance,
    );
    if told.picture.is_some() {
        return PictureEnd {
            refused: told.picture,
            done: 0,
            first: nothing_done(told.first),
            second: nothing_done(told.second),
            third: nothing_done(told.third),
        };
    }
    write_planes(
        canvas0, source0, reference0, canvas1, source1, reference1, canvas2, source2, reference2,
        book, codebook, settings, allowance, out, start, recon0, vx0, vy0, stated0, recon1, vx1,
        vy1, stated1, recon2, vx2, vy2, stated2,
    )
}
