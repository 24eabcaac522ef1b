// The motion search and the sum of one vector, as calls.
pub mod inner;

ghost use Rattle.std.specs.Prelude.{◌≡◌, ◌&&◌, ◌≤◌, ◌<◌};
ghost use Rattle.compensation.specs.RowForms.{best_or_none};
ghost use Rattle.vectors.specs.Vectors.{in_range};
ghost use Rattle.vectors.specs.VectorsLaws.{InRange};
ghost use Rattle.motion.specs.Search.{vector_of, vector_answer, search_refusal, search_answer};
ghost use Rattle.motion.specs.Sum.{sum_or23, sum_answer};
ghost use Rattle.motion.specs.CandidateForms.{raised_end, spot_search, MotionReady, lowered, lowered_mv, best_so_far, BestHeld};
ghost use Rattle.motion.specs.SearchCall.{either_side, search_block_ok, Raised};
ghost use Rattle.bits.specs.Refusals.{refused_by, answer_of};

use super::svq1_enc_inter::inner::{Candidate, Spot, axis_ok, search_best, vector_sum};
use bits::refusal::Refusal;
use canvas::svq1_plane::check_plane;
use compensation::svq1_enc_inter::inner::VectorSum;
use vectors::svq1_motion_predictor::Svq1Mv;

fn either_side(side: usize) -> bool
    ensures { result ≡ either_side side }
{
    side == 8 || side == 16
}

fn block_ok(len: usize, side: usize, x: usize, y: usize, stride: usize, rows: usize) -> bool
    ensures { result ≡ search_block_ok len side x y stride rows }
{
    either_side(side)
        && x % side == 0
        && y % side == 0
        && x < stride
        && y < rows
        && len == side * side
}

fn in_range(z: i32) -> bool
    ensures { result ≡ in_range z }
{
    -32 <= z && z <= 31
}

fn vector_ok(v: Svq1Mv) -> bool
    ensures { result ≡ (in_range v.x && in_range v.y) }
{
    in_range(v.x) && in_range(v.y)
}

// Refuses a plane, a block or a predictor.
fn check_search(
    reference: &[u8],
    width: usize,
    height: usize,
    stride: usize,
    rows: usize,
    target: &[u8],
    side: usize,
    x: usize,
    y: usize,
    predictor: Svq1Mv,
    radius: u8,
) -> Result<(), Refusal>
    ensures { refused_by result ≡ search_refusal (record { reference = record { samples = reference.now; stride = stride; rows = rows }; width = width; height = height; target = target.now; side = side; x = x; y = y; predictor = predictor; radius = radius }) }
{
    check_plane(reference, width, height, stride, rows)?;
    if !block_ok(target.len(), side, x, y, stride, rows) || !vector_ok(predictor) {
        return Err(Refusal::SearchBlock);
    }
    Ok(())
}

// A component raised by 1024, and back.
fn raise(z: i32) -> usize
    requires { InRange z }
    ensures { Raised z result }
{
    (z + 1024) as usize
}

fn lower(u: usize) -> i32
    requires { (992 ≤ u) × (u ≤ 1055) }
    ensures { result ≡ lowered u }
{
    u as i32 - 1024
}

fn answered(b: Candidate) -> Result<Svq1Mv, Refusal>
    requires { BestHeld b }
    ensures { answer_of result ≡ vector_answer (vector_of (best_so_far b)) }
{
    if 65536 <= b.error {
        return Err(Refusal::NoVector);
    }
    let x = lower(b.ux);
    let y = lower(b.uy);
    Ok(Svq1Mv { x, y })
}

// The motion search for the block of side x side samples at (x, y) of a plane of width x height visible samples.
pub fn search_motion_vector(
    reference: &[u8],
    width: usize,
    height: usize,
    stride: usize,
    rows: usize,
    target: &[u8],
    side: usize,
    x: usize,
    y: usize,
    predictor: Svq1Mv,
    radius: u8,
) -> Result<Svq1Mv, Refusal>
    ensures { answer_of result ≡ search_answer (record { reference = record { samples = reference.now; stride = stride; rows = rows }; width = width; height = height; target = target.now; side = side; x = x; y = y; predictor = predictor; radius = radius }) }
{
    check_search(
        reference, width, height, stride, rows, target, side, x, y, predictor, radius,
    )?;
    let px = raise(predictor.x);
    let py = raise(predictor.y);
    let p = Spot {
        x,
        y,
        width,
        height,
        stride,
        rows,
        side,
        px,
        py,
        radius: usize::from(radius),
    };
    answered(search_best(target, reference, p))
}

// The sum of a vector that may be tried, its components raised by 1024; any other is refused.
fn summed(
    target: &[u8],
    reference: &[u8],
    p: Spot,
    ux: usize,
    uy: usize,
    best: u64,
) -> Result<VectorSum, Refusal>
    requires { MotionReady target.now reference.now p × (ux < raised_end) × (uy < raised_end) }
    ensures { answer_of result ≡ sum_or23 (spot_search target.now reference.now p) (lowered_mv ux uy) (best_or_none best) }
{
    if !axis_ok(p.side, p.x, p.width, p.px, ux) || !axis_ok(p.side, p.y, p.height, p.py, uy) {
        return Err(Refusal::NoVector);
    }
    let found = Candidate {
        ux: 1024,
        uy: 1024,
        error: best,
    };
    Ok(vector_sum(target, reference, p, ux, uy, found))
}

// The sum of one vector against the best absolute error found so far, 65536 or more for none found: it ends behind the first row in which it
// reaches the best, else behind the last.
pub fn sum_motion_vector(
    reference: &[u8],
    width: usize,
    height: usize,
    stride: usize,
    rows: usize,
    target: &[u8],
    side: usize,
    x: usize,
    y: usize,
    predictor: Svq1Mv,
    v: Svq1Mv,
    best: u64,
) -> Result<VectorSum, Refusal>
    ensures { answer_of result ≡ sum_answer (record { reference = record { samples = reference.now; stride = stride; rows = rows }; width = width; height = height; target = target.now; side = side; x = x; y = y; predictor = predictor; radius = 0 }) v (best_or_none best) }
{
    check_search(
        reference, width, height, stride, rows, target, side, x, y, predictor, 0,
    )?;
    if !vector_ok(v) {
        return Err(Refusal::NoVector);
    }
    let px = raise(predictor.x);
    let py = raise(predictor.y);
    let ux = raise(v.x);
    let uy = raise(v.y);
    let p = Spot {
        x,
        y,
        width,
        height,
        stride,
        rows,
        side,
        px,
        py,
        radius: 0,
    };
    summed(target, reference, p, ux, uy, best)
}
