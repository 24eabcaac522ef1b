// Rows of a block in a plane.
// Functions that only the crates of this repository call. Most have a `requires`: the caller, proved too, meets it.
pub mod rebuild;

ghost use Rattle.std.specs.Prelude.{◌≡◌, ◌+◌, ◌*◌, ◌<◌, ◌≤◌, length};
ghost use Rattle.tree.specs.Blocks.{gather, paint, place};
ghost use Rattle.tree_samples.specs.RowForms.{Rows, Moves, moved};
ghost use Rattle.tree_samples.specs.PlaceLaws.{row_of, column_of};

use bits::inner::put_row;

// `h` rows of `w` samples of `m`, from sample `from` on and `step` apart, into `out` from sample `to` on and `stride` apart.
fn move_rows(
    out: &mut [u8],
    stride: usize,
    to: usize,
    m: &[u8],
    step: usize,
    from: usize,
    w: usize,
    h: usize,
)
    requires { Moves stride step h w to from (length out.old) (length m.now) }
    ensures { out.new ≡ moved stride step h w to from m.now out.old }
{
    let mut p = from;
    let mut q = to;
    for _row in 0..h {
        put_row(out, q, &m[p..p + w]);
        p += step;
        q += stride;
    }
}

// The samples `xs`, `h` rows of `w`, into the plane `out` of stride `s` from sample `at` on.
pub fn paint_block(out: &mut [u8], s: usize, at: usize, w: usize, h: usize, xs: &[u8])
    requires { Rows s h w at (length out.old) (length xs.now) }
    ensures { out.new ≡ paint s h w at xs.now out.old }
{
    move_rows(out, s, at, xs, w, 0, w, h)
}

// The block of `h` rows of `w` samples of the plane `m` of stride `s` that begins at sample `at`.
pub fn gather_block(m: &[u8], s: usize, at: usize, w: usize, h: usize, out: &mut [u8])
    requires { Rows s h w at (length m.now) (length out.old) }
    ensures { out.new ≡ gather s h w at m.now }
{
    move_rows(out, w, 0, m, s, at, w, h)
}

// Where each of the 63 blocks begins in a macroblock.
const ROWS: [u8; 63] = [
    0, 0, 8, 0, 0, 8, 8, 0, 4, 0, 4, 8, 12, 8, 12, 0, 0, 4, 4, 0, 0, 4, 4, 8, 8, 12, 12, 8, 8, 12,
    12, 0, 2, 0, 2, 4, 6, 4, 6, 0, 2, 0, 2, 4, 6, 4, 6, 8, 10, 8, 10, 12, 14, 12, 14, 8, 10, 8, 10,
    12, 14, 12, 14,
];

const COLUMNS: [u8; 63] = [
    0, 0, 0, 0, 8, 0, 8, 0, 0, 8, 8, 0, 0, 8, 8, 0, 4, 0, 4, 8, 12, 8, 12, 0, 4, 0, 4, 8, 12, 8,
    12, 0, 0, 4, 4, 0, 0, 4, 4, 8, 8, 12, 12, 8, 8, 12, 12, 0, 0, 4, 4, 0, 0, 4, 4, 8, 8, 12, 12,
    8, 8, 12, 12,
];

fn row_of(i: usize) -> usize
    requires { i < 63 }
    ensures { (result ≡ row_of i) × (result ≤ 15) }
{
    ROWS[i] as usize
}

fn column_of(i: usize) -> usize
    requires { i < 63 }
    ensures { (result ≡ column_of i) × (result ≤ 15) }
{
    COLUMNS[i] as usize
}

// Where block i begins in a plane of stride `s`.
pub fn place_of(s: usize, i: usize) -> usize
    requires { (i < 63) × (s ≤ 4096) }
    ensures { (result ≡ place s i) × (result ≤ 65536) }
{
    s * row_of(i) + column_of(i)
}
