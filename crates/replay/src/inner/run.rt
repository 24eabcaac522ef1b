// One job of the fixed list: written, read back, and held against the original's answer.
ghost use Rattle.std.specs.Prelude.{◌*◌, ◌≤◌, length};
ghost use Rattle.replay.specs.Layout.{most_size, most_job_blocks};

use super::super::inner::compare::{
    Difference, coded_difference, read_difference, slices_difference, written_difference,
};
use super::super::inner::file::{Job, Scene, part};
use super::super::inner::tally::{Tally, job_tally};
use book::inner::{BOOK_BYTES, CODEBOOK_BYTES};
use macroblock::svq1_enc_inter::Settings;
use plane_dec::svq1_plane::{ReadEnd, decode_inter_plane};
use plane_enc::svq1_enc_inter::{WriteEnd, encode_inter_plane_stated};

fn write_job(
    file: &[u8],
    s: Scene,
    j: Job,
    out: &mut [u8],
    recon: &mut [u8],
    vx: &mut [u8],
    vy: &mut [u8],
    stated: &mut [u32],
) -> WriteEnd {
    let canvas = s.canvas;
    let source = part(file, s.source, s.samples);
    let reference = part(file, s.reference, s.size);
    let book = part(file, j.book, BOOK_BYTES);
    let codebook = part(file, j.codebook, CODEBOOK_BYTES);
    let settings = Settings {
        lambda: j.lambda,
        radius: j.radius,
        four: j.four,
        margin: 0,
    };
    encode_inter_plane_stated(
        canvas, source, reference, book, codebook, settings, out, 0, recon, vx, vy, stated,
    )
}

fn read_job_back(
    file: &[u8],
    s: Scene,
    j: Job,
    bytes: &[u8],
    recon: &mut [u8],
    vx: &mut [u8],
    vy: &mut [u8],
) -> ReadEnd {
    let canvas = s.canvas;
    let reference = part(file, s.reference, s.size);
    let book = part(file, j.book, BOOK_BYTES);
    let codebook = part(file, j.codebook, CODEBOOK_BYTES);
    decode_inter_plane(canvas, reference, book, codebook, bytes, 0, recon, vx, vy)
}

// What the writer answered, and the first difference.
#[derive(Drop)]
struct Wrote {
    end: WriteEnd,
    differs: Option<Difference>,
}

fn replay_writer(
    file: &[u8],
    s: Scene,
    j: Job,
    out: &mut [u8],
    recon: &mut [u8],
    vx: &mut [u8],
    vy: &mut [u8],
    stated: &mut [u32],
) -> Wrote
    requires { (s.size ≤ most_size) × (3 * most_job_blocks ≤ length stated.old) }
{
    let end = write_job(file, s, j, out, recon, vx, vy, stated);
    let slices = slices_difference(file, s.size, j, recon, vx, vy);
    let coded = coded_difference(file, s.size, j, out, stated, slices);
    let differs = written_difference(s.size, j.count, end, coded);
    Wrote { end, differs }
}

fn replay_reader(
    file: &[u8],
    s: Scene,
    j: Job,
    bytes: &[u8],
    recon: &mut [u8],
    vx: &mut [u8],
    vy: &mut [u8],
) -> Option<Difference> {
    let end = read_job_back(file, s, j, bytes, recon, vx, vy);
    let slices = slices_difference(file, s.size, j, recon, vx, vy);
    read_difference(s.size, j.count, end, slices)
}

// With an output and result slices of each one's own.
fn replay_lent(
    file: &[u8],
    s: Scene,
    j: Job,
    out: &mut [u8],
    recon: &mut [u8],
    vx: &mut [u8],
    vy: &mut [u8],
    stated: &mut [u32],
    back: &mut [u8],
    backx: &mut [u8],
    backy: &mut [u8],
) -> Tally
    requires { (s.size ≤ most_size) × (3 * most_job_blocks ≤ length stated.old) × (most_size ≤ length recon.old) × (most_size ≤ length back.old) }
{
    let size = s.size;
    let w = replay_writer(file, s, j, out, &mut recon[0..size], vx, vy, stated);
    let read = replay_reader(file, s, j, out, &mut back[0..size], backx, backy);
    let end = w.end;
    let written = w.differs;
    job_tally(stated, size / 256, end, written, read)
}

pub fn replay_job(file: &[u8], s: Scene, j: Job) -> Tally
    requires { s.size ≤ most_size }
{
    let mut out = [0u8; 8192];
    let mut recon = [0u8; 4096];
    let mut vx = [0u8; 64];
    let mut vy = [0u8; 64];
    let mut stated = [0u32; 48];
    let mut back = [0u8; 4096];
    let mut backx = [0u8; 64];
    let mut backy = [0u8; 64];
    replay_lent(
        file,
        s,
        j,
        &mut out,
        &mut recon,
        &mut vx,
        &mut vy,
        &mut stated,
        &mut back,
        &mut backx,
        &mut backy,
    )
}
