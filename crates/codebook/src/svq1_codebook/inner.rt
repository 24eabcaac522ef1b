// Functions that only the crates of this repository call: the codebook's copy in raster order, each byte raised by 128, and where a level's
// page begins in it.
ghost use Rattle.std.specs.Prelude.{◌≡◌, ◌+◌, ◌*◌, ◌%◌, ◌<◌, ◌≤◌, length, get_or};
ghost use Rattle.book.specs.Book.{codebook_bytes};
ghost use Rattle.codebook.specs.CodebookForms.{raised_codebook, page_start};
ghost use Rattle.codebook.specs.RaiseNeeds.{LevelVectors, VectorFilling, RaisedTo, four_raised};

use super::super::svq1_codebook::{RASTER_NUMBERS, raster_order};
use book::svq1_vlc::Svq1Half;

// A two's complement byte plus 128.
fn raise(b: u8) -> u8
    ensures { result ≡ (b + 128) % 256 }
{
    ((b as u16 + 128) % 256) as u8
}

// Byte i of the codebook, raised.
fn raised(codebook: &[u8], i: usize) -> u8
    requires { i < length codebook.now }
    ensures { result ≡ (get_or codebook.now i 0 + 128) % 256 }
{
    raise(codebook[i])
}

// Four bytes of the codebook from `from` on, raised, into `out` from `to` on: all are read before the first is stored, so that they are read and
// stored at once.
fn raise_four(codebook: &[u8], out: &mut [u8], from: usize, to: usize)
    requires { (from + 4 ≤ length codebook.now) × (to + 4 ≤ length out.old) }
    ensures { out.new ≡ four_raised codebook.now out.old from to }
{
    let a = raised(codebook, from);
    let b = raised(codebook, from + 1);
    let c = raised(codebook, from + 2);
    let d = raised(codebook, from + 3);
    out[to] = a;
    out[to + 1] = b;
    out[to + 2] = c;
    out[to + 3] = d;
}

// The vector of n bytes at `at`, in raster order; its level's numbers begin at s. Four bytes stay together, so that the place of the first tells
// those of all.
fn raise_vector(
    codebook: &[u8],
    out: &mut [u8],
    order: &[u8; RASTER_NUMBERS],
    n: usize,
    s: usize,
    at: usize,
)
    requires { (length codebook.now ≡ codebook_bytes) × VectorFilling codebook.now order.now n s at 0 out.old }
    ensures { RaisedTo codebook.now (at + n) out.new }
{
    let mut b = 0;
    while b < n {
        let i = s + b;
        let p = order[i] as usize;
        raise_four(codebook, out, at + b, at + p);
        b += 4;
    }
}

// The vectors of a level, of both halves, which stand one behind the other from `from` on.
fn raise_level(
    codebook: &[u8],
    out: &mut [u8],
    order: &[u8; RASTER_NUMBERS],
    n: usize,
    s: usize,
    from: usize,
)
    requires { (length codebook.now ≡ codebook_bytes) × LevelVectors order.now n s from × RaisedTo codebook.now from out.old }
    ensures { RaisedTo codebook.now (from + 192 * n) out.new }
{
    for k in 0..192 {
        raise_vector(codebook, out, order, n, s, from + k * n);
    }
}

// The codebook in raster order, each byte plus 128, into `out`: L3, L2, L1, L0, each by the bytes of a vector, where its numbers begin in the table
// and where its pages begin.
pub fn raise_codebook(codebook: &[u8], out: &mut [u8])
    requires { (length codebook.now ≡ codebook_bytes) × (length out.old ≡ codebook_bytes) }
    ensures { out.new ≡ raised_codebook codebook.now }
{
    let order = raster_order();
    raise_level(codebook, out, &order, 64, 56, 0);
    raise_level(codebook, out, &order, 32, 24, 12288);
    raise_level(codebook, out, &order, 16, 8, 18432);
    raise_level(codebook, out, &order, 8, 0, 21504);
}

// Where a level's search looks for vectors in the raised codebook: its half's page, by the level's number; 0 for L4 and L5, which have none, and for every
// number above them.
pub fn page_start(half: Svq1Half, d: usize) -> usize
    ensures { result ≡ page_start half d }
{
    match half {
        Svq1Half::Intra => match d {
            0 => 21504,
            1 => 18432,
            2 => 12288,
            _ => 0,
        },
        Svq1Half::Inter => match d {
            0 => 22272,
            1 => 19968,
            2 => 15360,
            3 => 6144,
            _ => 0,
        },
    }
}
