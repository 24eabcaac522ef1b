// The writer of pictures.
ghost use Rattle.std.specs.Prelude.{[], ◌∷◌};
ghost use Rattle.picture.specs.Picture.{shared_by, results_by, plane_by};
ghost use Rattle.picture.specs.PictureNeeds.{picture_end_of};
ghost use Rattle.cabunlis.specs.Host.{settings_of, PictureTold, HostPictureWritten};

use super::planes::{HostAnswer, index_of, plane_answer, settings_of};
use bits::refusal::number_told;
use canvas::svq1_plane::Svq1PlaneCanvas;
use picture::PictureEnd;
use picture_enc::encode_picture;

// What a picture call answers: for the picture the refusal, its macroblock counted through the planes, and the macroblocks done, and for each plane what a
// plane call answers.
#[repr(C)]
#[derive(Drop)]
pub struct HostPicture {
    pub refusal: u32,
    pub macroblock: usize,
    pub done: usize,
    pub first: HostAnswer,
    pub second: HostAnswer,
    pub third: HostAnswer,
}

// The answer with the macroblock's index where it has one.
fn picture_answer(e: PictureEnd) -> HostPicture
    ensures { PictureTold (picture_end_of e) result }
{
    let first = e.first;
    let second = e.second;
    let third = e.third;
    HostPicture {
        refusal: number_told(e.refused) as u32,
        macroblock: index_of(number_told(e.refused), e.done),
        done: e.done,
        first: plane_answer(first),
        second: plane_answer(second),
        third: plane_answer(third),
    }
}

// Writes three planes inside one allowance of bits; four vectors are tried unless `four` is 0.
#[unsafe(no_mangle)]
pub extern "C" fn cabunlis2_encode_picture(
    width0: usize,
    height0: usize,
    stride0: usize,
    rows0: usize,
    source0: &[u8],
    reference0: &[u8],
    recon0: &mut [u8],
    vx0: &mut [u8],
    vy0: &mut [u8],
    stated0: &mut [u32],
    width1: usize,
    height1: usize,
    stride1: usize,
    rows1: usize,
    source1: &[u8],
    reference1: &[u8],
    recon1: &mut [u8],
    vx1: &mut [u8],
    vy1: &mut [u8],
    stated1: &mut [u32],
    width2: usize,
    height2: usize,
    stride2: usize,
    rows2: usize,
    source2: &[u8],
    reference2: &[u8],
    recon2: &mut [u8],
    vx2: &mut [u8],
    vy2: &mut [u8],
    stated2: &mut [u32],
    book: &[u8],
    codebook: &[u8],
    lambda: u64,
    radius: u8,
    four: u8,
    margin: u32,
    allowance: u64,
    out: &mut [u8],
    start: usize,
) -> HostPicture
    ensures { HostPictureWritten (shared_by book.now codebook.now (settings_of lambda radius four margin)) (plane_by (record { width = width0; height = height0; stride = stride0; rows = rows0 }) source0.now reference0.now (results_by recon0.old vx0.old vy0.old stated0.old) ∷ plane_by (record { width = width1; height = height1; stride = stride1; rows = rows1 }) source1.now reference1.now (results_by recon1.old vx1.old vy1.old stated1.old) ∷ plane_by (record { width = width2; height = height2; stride = stride2; rows = rows2 }) source2.now reference2.now (results_by recon2.old vx2.old vy2.old stated2.old) ∷ []) allowance out.old start result out.new (results_by recon0.new vx0.new vy0.new stated0.new ∷ results_by recon1.new vx1.new vy1.new stated1.new ∷ results_by recon2.new vx2.new vy2.new stated2.new ∷ []) }
{
    let canvas0 = Svq1PlaneCanvas {
        width: width0,
        height: height0,
        stride: stride0,
        rows: rows0,
    };
    let canvas1 = Svq1PlaneCanvas {
        width: width1,
        height: height1,
        stride: stride1,
        rows: rows1,
    };
    let canvas2 = Svq1PlaneCanvas {
        width: width2,
        height: height2,
        stride: stride2,
        rows: rows2,
    };
    let settings = settings_of(lambda, radius, four, margin);
    let e = encode_picture(
        canvas0, source0, reference0, canvas1, source1, reference1, canvas2, source2, reference2,
        book, codebook, settings, allowance, out, start, recon0, vx0, vy0, stated0, recon1, vx1,
        vy1, stated1, recon2, vx2, vy2, stated2,
    );
    picture_answer(e)
}
