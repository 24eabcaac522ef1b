// Functions that only the crates of this repository call. Most have a `requires`: the caller, proved too, meets it. The functions for
// everybody else are in the modules that keep the names of the original's files.
ghost use Rattle.std.specs.Prelude.{◌≡◌, ◌∷◌, [], map, ◌+◌, ◌*◌, ◌<◌, ◌≤◌, length, get_or};
ghost use Rattle.std.proofs.Math.IntN.{sub_ℕ};
ghost use Rattle.bits.specs.Basics.{signed_byte};
ghost use Rattle.vectors.specs.VectorsLaws.{InRange, Inside};
ghost use Rattle.mv_cache.specs.Neighbours.{neighbour_at, near_of};
ghost use Rattle.mv_cache.specs.Grid.{row_set, put_part};
ghost use Rattle.mv_cache.specs.CacheNeeds.{near_from, VectorSlices, BlocksRoom, Stored};

use super::super::svq1_mv_cache::NearBlocks;
use bits::inner::{put_row, signed};
use vectors::svq1_motion_predictor::Svq1Mv;

// The byte of a component in -32..31.
fn byte_of(z: i32) -> u8
    requires { InRange z }
    ensures { result ≡ signed_byte z }
{
    if z < 0 { (z + 256) as u8 } else { z as u8 }
}

// The vector of the neighbour that many 8x8 rows above a row, and that many columns left of a column; off the plane there is none.
fn neighbour_at(
    vx: &[u8],
    vy: &[u8],
    cols: usize,
    rows: usize,
    row: usize,
    up: usize,
    col: usize,
    back: usize,
) -> Option<Svq1Mv>
    requires { VectorSlices cols rows vx.now vy.now }
    ensures { result ≡ neighbour_at cols rows vx.now vy.now (sub_ℕ row up) (sub_ℕ col back) }
{
    if row < up || 2 * rows <= row - up || col < back || 2 * cols <= col - back {
        return None;
    }
    let i = (row - up) * (2 * cols) + (col - back);
    let x = signed(vx[i]);
    let y = signed(vy[i]);
    Some(Svq1Mv { x, y })
}

// The seven neighbours of macroblock k.
pub fn near_blocks(vx: &[u8], vy: &[u8], cols: usize, rows: usize, k: usize) -> NearBlocks
    requires { VectorSlices cols rows vx.now vy.now × (k < rows * cols) }
    ensures { near_from result ≡ near_of cols rows vx.now vy.now k }
{
    let r = k / cols * 2;
    let c = k % cols * 2;
    let left = neighbour_at(vx, vy, cols, rows, r, 0, c, 1);
    let low_left = neighbour_at(vx, vy, cols, rows, r + 1, 0, c, 1);
    let above = neighbour_at(vx, vy, cols, rows, r, 2, c, 0);
    let above_right = neighbour_at(vx, vy, cols, rows, r, 2, c + 2, 0);
    let top = neighbour_at(vx, vy, cols, rows, r, 1, c, 0);
    let top_next = neighbour_at(vx, vy, cols, rows, r, 1, c + 1, 0);
    let top_right = neighbour_at(vx, vy, cols, rows, r, 1, c + 2, 0);
    NearBlocks {
        left,
        low_left,
        above,
        above_right,
        top,
        top_next,
        top_right,
    }
}

// n entries from place o on, copied from place p on.
pub fn copy_row(out: &mut [u8], source: &[u8], o: usize, p: usize, n: usize)
    requires { (o + n ≤ length out.old) × (p + n ≤ length source.now) }
    ensures { out.new ≡ row_set o (λ j. get_or source.now (p + j) 0) n out.old }
{
    put_row(out, o, &source[p..p + n])
}

// The entries v as macroblock k of a slice that is cols macroblocks wide, with `side` entries in a macroblock's row, and as many rows.
pub fn put_part(out: &mut [u8], side: usize, cols: usize, k: usize, v: &[u8])
    requires { BlocksRoom side cols k out.old × (length v.now ≡ side * side) }
    ensures { out.new ≡ put_part side cols k v.now out.old }
{
    for i in 0..side {
        let o = (k / cols * side + i) * (side * cols) + k % cols * side;
        copy_row(out, v, o, side * i, side);
    }
}

// Macroblock k's four components, in raster order, into one slice.
fn store_components(s: &mut [u8], cols: usize, k: usize, a: i32, b: i32, c: i32, d: i32)
    requires { BlocksRoom 2 cols k s.old × InRange a × InRange b × InRange c × InRange d }
    ensures { s.new ≡ put_part 2 cols k (map signed_byte (a ∷ b ∷ c ∷ d ∷ [])) s.old }
{
    let v = [byte_of(a), byte_of(b), byte_of(c), byte_of(d)];
    put_part(s, 2, cols, k, &v);
}

// The four vectors of macroblock k, in raster order, into both slices.
pub fn store_vectors(
    vx: &mut [u8],
    vy: &mut [u8],
    cols: usize,
    rows: usize,
    k: usize,
    a: Svq1Mv,
    b: Svq1Mv,
    c: Svq1Mv,
    d: Svq1Mv,
)
    requires { VectorSlices cols rows vx.old vy.old × (k < rows * cols) × Inside a × Inside b × Inside c × Inside d }
    ensures { Stored cols k (a ∷ b ∷ c ∷ d ∷ []) vx.old vy.old vx.new vy.new }
{
    store_components(vx, cols, k, a.x, b.x, c.x, d.x);
    store_components(vy, cols, k, a.y, b.y, c.y, d.y);
}
