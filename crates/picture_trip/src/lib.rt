// A picture written, and its planes read back: what is claimed of a picture, tied to memory.
#![tactic(auto)]

ghost use Rattle.std.specs.Prelude.{[], ◌∷◌};
ghost use Rattle.bits.specs.Refusals.{number_told};
ghost use Rattle.macroblock.specs.MacroblockNeeds.{given_by};
ghost use Rattle.macroblock.specs.Slices.{slices_by};
ghost use Rattle.plane.specs.Calls.{PlaneRead};
ghost use Rattle.plane_dec.specs.ReaderNeeds as reader;
ghost use Rattle.plane_enc.specs.WriterNeeds as writer;
ghost use Rattle.picture.specs.Picture.{shared_by, results_by, plane_by};
ghost use Rattle.picture_trip.specs.PictureTrip.{PictureTrip};

use canvas::svq1_plane::Svq1PlaneCanvas;
use macroblock::svq1_enc_inter::Settings;
use picture::PictureEnd;
use picture_enc::encode_picture;
use plane_dec::svq1_plane::{ReadEnd, decode_inter_plane};

// What the writer answered, and the reader of each plane.
#[derive(Clone, Copy)]
pub struct PictureTripEnd {
    pub written: PictureEnd,
    pub read: PlanesRead,
}

#[derive(Clone, Copy)]
pub struct PlanesRead {
    pub first: ReadEnd,
    pub second: ReadEnd,
    pub third: ReadEnd,
}

// Three planes, each read from a bit of its own.
fn read_planes(
    canvas0: Svq1PlaneCanvas,
    reference0: &[u8],
    canvas1: Svq1PlaneCanvas,
    reference1: &[u8],
    canvas2: Svq1PlaneCanvas,
    reference2: &[u8],
    book: &[u8],
    codebook: &[u8],
    bytes: &[u8],
    start0: usize,
    start1: usize,
    start2: usize,
    back0: &mut [u8],
    backx0: &mut [u8],
    backy0: &mut [u8],
    back1: &mut [u8],
    backx1: &mut [u8],
    backy1: &mut [u8],
    back2: &mut [u8],
    backx2: &mut [u8],
    backy2: &mut [u8],
) -> PlanesRead
    ensures { PlaneRead (given_by canvas0 reference0.now book.now codebook.now) bytes.now start0 (slices_by back0.old backx0.old backy0.old) (reader.read_end_of result.first) (slices_by back0.new backx0.new backy0.new) × PlaneRead (given_by canvas1 reference1.now book.now codebook.now) bytes.now start1 (slices_by back1.old backx1.old backy1.old) (reader.read_end_of result.second) (slices_by back1.new backx1.new backy1.new) × PlaneRead (given_by canvas2 reference2.now book.now codebook.now) bytes.now start2 (slices_by back2.old backx2.old backy2.old) (reader.read_end_of result.third) (slices_by back2.new backx2.new backy2.new) }
{
    let first = decode_inter_plane(
        canvas0, reference0, book, codebook, bytes, start0, back0, backx0, backy0,
    );
    let second = decode_inter_plane(
        canvas1, reference1, book, codebook, bytes, start1, back1, backx1, backy1,
    );
    let third = decode_inter_plane(
        canvas2, reference2, book, codebook, bytes, start2, back2, backx2, backy2,
    );
    PlanesRead {
        first,
        second,
        third,
    }
}

// A picture, written from bit `start` of `out` on as by `encode_picture`, then each plane read back from the bit where the one before it ended, as by
// `decode_inter_plane`, into slices of its own.
pub fn round_trip_picture(
    canvas0: Svq1PlaneCanvas,
    source0: &[u8],
    reference0: &[u8],
    canvas1: Svq1PlaneCanvas,
    source1: &[u8],
    reference1: &[u8],
    canvas2: Svq1PlaneCanvas,
    source2: &[u8],
    reference2: &[u8],
    book: &[u8],
    codebook: &[u8],
    settings: Settings,
    allowance: u64,
    out: &mut [u8],
    start: usize,
    recon0: &mut [u8],
    vx0: &mut [u8],
    vy0: &mut [u8],
    stated0: &mut [u32],
    recon1: &mut [u8],
    vx1: &mut [u8],
    vy1: &mut [u8],
    stated1: &mut [u32],
    recon2: &mut [u8],
    vx2: &mut [u8],
    vy2: &mut [u8],
    stated2: &mut [u32],
    back0: &mut [u8],
    backx0: &mut [u8],
    backy0: &mut [u8],
    back1: &mut [u8],
    backx1: &mut [u8],
    backy1: &mut [u8],
    back2: &mut [u8],
    backx2: &mut [u8],
    backy2: &mut [u8],
) -> PictureTripEnd
    ensures { PictureTrip (shared_by book.now codebook.now settings) (record { plane = plane_by canvas0 source0.now reference0.now (results_by recon0.old vx0.old vy0.old stated0.old); wrote = writer.write_end_of result.written.first; left = results_by recon0.new vx0.new vy0.new stated0.new; back = slices_by back0.old backx0.old backy0.old; read = reader.read_end_of result.read.first; left_back = slices_by back0.new backx0.new backy0.new } ∷ record { plane = plane_by canvas1 source1.now reference1.now (results_by recon1.old vx1.old vy1.old stated1.old); wrote = writer.write_end_of result.written.second; left = results_by recon1.new vx1.new vy1.new stated1.new; back = slices_by back1.old backx1.old backy1.old; read = reader.read_end_of result.read.second; left_back = slices_by back1.new backx1.new backy1.new } ∷ record { plane = plane_by canvas2 source2.now reference2.now (results_by recon2.old vx2.old vy2.old stated2.old); wrote = writer.write_end_of result.written.third; left = results_by recon2.new vx2.new vy2.new stated2.new; back = slices_by back2.old backx2.old backy2.old; read = reader.read_end_of result.read.third; left_back = slices_by back2.new backx2.new backy2.new } ∷ []) allowance out.old start (number_told result.written.refused) result.written.done out.new }
{
    let written = encode_picture(
        canvas0, source0, reference0, canvas1, source1, reference1, canvas2, source2, reference2,
        book, codebook, settings, allowance, out, start, recon0, vx0, vy0, stated0, recon1, vx1,
        vy1, stated1, recon2, vx2, vy2, stated2,
    );
    let end0 = written.first;
    let end1 = written.second;
    let read = read_planes(
        canvas0, reference0, canvas1, reference1, canvas2, reference2, book, codebook, out, start,
        end0.next, end1.next, back0, backx0, backy0, back1, backx1, backy1, back2, backx2, backy2,
    );
    PictureTripEnd { written, read }
}
