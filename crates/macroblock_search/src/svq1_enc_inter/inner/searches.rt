// The searches for a macroblock's vectors.
ghost use Rattle.std.specs.Prelude.{◌≡◌, ◌*◌, ◌/◌, ◌%◌, ◌<◌};
ghost use Rattle.canvas.specs.Canvas.{largest_side, blocks_along};
ghost use Rattle.motion.specs.Search.{searched};
ghost use Rattle.motion.specs.SearchCallLaws.{Passes};
ghost use Rattle.vectors.specs.VectorsLaws.{Inside};
ghost use Rattle.mv_cache.specs.NeighboursLaws.{Around};
ghost use Rattle.mv_cache.specs.Neighbours.{for_first, for_second, for_third, for_fourth};
ghost use Rattle.mv_cache.specs.CacheNeeds.{near_from};
ghost use Rattle.macroblock_search.specs.SearchNeeds.{search_by, quarter_by, Searching, Cornered, pair_searched};

use canvas::svq1_plane::Svq1PlaneCanvas;
use canvas::svq1_plane::inner::blocks_along;
use motion::svq1_enc_inter::search_motion_vector;
use mv_cache::svq1_mv_cache::{
    NearBlocks, predict_first, predict_fourth, predict_second, predict_third,
};
use tree_samples::svq1_enc_tree::inner::gather_block;
use vectors::svq1_motion_predictor::Svq1Mv;

// The vectors of two 8x8 blocks beside each other.
#[derive(Clone, Copy)]
pub struct VectorPair {
    pub first: Svq1Mv,
    pub second: Svq1Mv,
}

// A macroblock's first column and row.
#[derive(Clone, Copy)]
pub struct Corner {
    pub x: usize,
    pub y: usize,
}

pub fn corner_of(canvas: Svq1PlaneCanvas, k: usize) -> Corner
    requires { Cornered canvas k }
    ensures { (result.x ≡ 16 * (k % blocks_along canvas.width)) × (result.y ≡ 16 * (k / blocks_along canvas.width)) × (result.x < largest_side) × (result.y < largest_side) }
{
    let cols = blocks_along(canvas.width);
    Corner {
        x: 16 * (k % cols),
        y: 16 * (k / cols),
    }
}

// What the search finds for the block of this side at (x, y).
pub fn find_vector(
    canvas: Svq1PlaneCanvas,
    reference: &[u8],
    target: &[u8],
    side: usize,
    x: usize,
    y: usize,
    predictor: Svq1Mv,
    radius: u8,
) -> Option<Svq1Mv>
    requires { Passes (search_by canvas reference.now target.now side x y predictor radius) }
    ensures { result ≡ searched (search_by canvas reference.now target.now side x y predictor radius) }
{
    let answer = search_motion_vector(
        reference,
        canvas.width,
        canvas.height,
        canvas.stride,
        canvas.rows,
        target,
        side,
        x,
        y,
        predictor,
        radius,
    );
    answer.ok()
}

// The same for 8x8 block j of macroblock k.
fn find_quarter(
    canvas: Svq1PlaneCanvas,
    reference: &[u8],
    target: &[u8],
    k: usize,
    j: usize,
    predictor: Svq1Mv,
    radius: u8,
) -> Option<Svq1Mv>
    requires { Searching canvas reference.now target.now k × (j < 4) × Inside predictor }
    ensures { result ≡ searched (quarter_by canvas reference.now target.now k j predictor radius) }
{
    let mut part = [0u8; 64];
    gather_block(target, 16, 128 * (j / 2) + 8 * (j % 2), 8, 8, &mut part);
    let corner = corner_of(canvas, k);
    find_vector(
        canvas,
        reference,
        &part,
        8,
        corner.x + 8 * (j % 2),
        corner.y + 8 * (j / 2),
        predictor,
        radius,
    )
}

// The vectors of the first two 8x8 blocks.
pub fn first_pair(
    canvas: Svq1PlaneCanvas,
    reference: &[u8],
    target: &[u8],
    near: NearBlocks,
    k: usize,
    radius: u8,
) -> Option<VectorPair>
    requires { Searching canvas reference.now target.now k × Around (near_from near) }
    ensures { result ≡ pair_searched (quarter_by canvas reference.now target.now k 0 (for_first (near_from near)) radius) (λ a. quarter_by canvas reference.now target.now k 1 (for_second (near_from near) a) radius) }
{
    let p = predict_first(near);
    let first = find_quarter(canvas, reference, target, k, 0, p, radius)?;
    let q = predict_second(near, first);
    let second = find_quarter(canvas, reference, target, k, 1, q, radius)?;
    Some(VectorPair { first, second })
}

// Those of the other two, behind the first two.
pub fn second_pair(
    canvas: Svq1PlaneCanvas,
    reference: &[u8],
    target: &[u8],
    near: NearBlocks,
    a: Svq1Mv,
    b: Svq1Mv,
    k: usize,
    radius: u8,
) -> Option<VectorPair>
    requires { Searching canvas reference.now target.now k × Around (near_from near) × Inside a × Inside b }
    ensures { result ≡ pair_searched (quarter_by canvas reference.now target.now k 2 (for_third (near_from near) a b) radius) (λ c. quarter_by canvas reference.now target.now k 3 (for_fourth a b c) radius) }
{
    let p = predict_third(near, a, b);
    let first = find_quarter(canvas, reference, target, k, 2, p, radius)?;
    let q = predict_fourth(a, b, first);
    let second = find_quarter(canvas, reference, target, k, 3, q, radius)?;
    Some(VectorPair { first, second })
}
