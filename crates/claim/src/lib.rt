// A plane written and read back: what is claimed of a whole plane, tied to memory.
#![tactic(auto)]

ghost use Rattle.macroblock_choice.specs.ChosenNeeds.{task_by};
ghost use Rattle.macroblock.specs.MacroblockNeeds.{given_by};
ghost use Rattle.plane_dec.specs.ReaderNeeds as reader;
ghost use Rattle.plane_enc.specs.WriterNeeds as writer;
ghost use Rattle.claim.specs.RoundTrip.{trip_by, RoundTrip};
ghost use Rattle.macroblock.specs.Slices.{slices_by, lent_by};

use canvas::svq1_plane::Svq1PlaneCanvas;
use macroblock::svq1_enc_inter::Settings;
use plane_dec::svq1_plane::{ReadEnd, decode_inter_plane};
use plane_enc::svq1_enc_inter::{WriteEnd, encode_inter_plane_stated};

// What the writer answered, and the reader.
#[derive(Clone, Copy)]
pub struct TripEnd {
    pub written: WriteEnd,
    pub read: ReadEnd,
}

// An inter plane, written from bit `start` of `out` on as by `encode_inter_plane_stated`, then read back from there as by `decode_inter_plane` into slices of
// its own: `back`, `backx` and `backy`.
pub fn round_trip_inter_plane(
    canvas: Svq1PlaneCanvas,
    source: &[u8],
    reference: &[u8],
    book: &[u8],
    codebook: &[u8],
    settings: Settings,
    out: &mut [u8],
    start: usize,
    recon: &mut [u8],
    vx: &mut [u8],
    vy: &mut [u8],
    stated: &mut [u32],
    back: &mut [u8],
    backx: &mut [u8],
    backy: &mut [u8],
) -> TripEnd
    ensures { RoundTrip (given_by canvas reference.now book.now codebook.now) (task_by source.now settings) start (trip_by (lent_by out.old (slices_by recon.old vx.old vy.old)) stated.old (slices_by back.old backx.old backy.old)) (writer.write_end_of result.written) (reader.read_end_of result.read) (trip_by (lent_by out.new (slices_by recon.new vx.new vy.new)) stated.new (slices_by back.new backx.new backy.new)) }
{
    let written = encode_inter_plane_stated(
        canvas, source, reference, book, codebook, settings, out, start, recon, vx, vy, stated,
    );
    let read = decode_inter_plane(
        canvas, reference, book, codebook, out, start, back, backx, backy,
    );
    TripEnd { written, read }
}
