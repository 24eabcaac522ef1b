// The motion search: its candidates in their order, and the best of them.
ghost use Rattle.std.specs.Prelude.{◌≡◌, true, ◌+◌, ◌-◌, ◌*◌, ◌/◌, ◌%◌, ◌<◌, ◌≤◌, min};
ghost use Rattle.compensation.specs.RowForms.{no_best};
ghost use Rattle.motion.specs.Search.{consider, row_to, rows_to, search_best};
ghost use Rattle.motion.specs.Sum.{vector_sum, error_found};
ghost use Rattle.motion.specs.CandidateForms.{raised_end, spot_search, MotionReady, lowered, lowered_mv, axis_up, Both, best_so_far, BestHeld, Spans, Clipped, refined};

use compensation::svq1_enc_inter::inner::{VectorSum, block_sum, sum_full};

// A block's place, the visible size, the canvas, the block's side, the predicted vector, raised by 1024, and the radius.
#[derive(Clone, Copy)]
pub struct Spot {
    pub x: usize,
    pub y: usize,
    pub width: usize,
    pub height: usize,
    pub stride: usize,
    pub rows: usize,
    pub side: usize,
    pub px: usize,
    pub py: usize,
    pub radius: usize,
}

// The best vector so far, raised by 1024, and its absolute error. An error of 65536 or more, which no block's is, stands for none, with the
// vector at zero: the half-sample neighbours are then those of zero.
#[derive(Clone, Copy)]
pub struct Candidate {
    pub ux: usize,
    pub uy: usize,
    pub error: u64,
}

// The full-sample candidates of an axis that can be codable.
#[derive(Clone, Copy)]
pub struct Span {
    pub from: usize,
    pub to: usize,
}

// The lesser of a block's last place and the last visible one.
fn last_seen(place: usize, side: usize, size: usize) -> usize
    requires { (place + side < raised_end) × (1 ≤ side) × (1 ≤ size) }
    ensures { result ≡ min (place + side - 1) (size - 1) }
{
    (place + side - 1).min(size - 1)
}

// Codable and in the window, on one axis.
pub fn axis_ok(side: usize, place: usize, size: usize, p: usize, u: usize) -> bool
    requires { (place + side < raised_end) × (1 ≤ side) × (1 ≤ size) × (size < raised_end) × (p < raised_end) × (u < raised_end) }
    ensures { result ≡ axis_up side place size p u }
{
    992 <= u
        && u <= 1055
        && p <= u + 32
        && u <= p + 31
        && 512 <= place + u / 2
        && last_seen(place, side, size) + (u + 1) / 2 < size + 512
}

// Of an allowed vector: its sum against the best that the search has found so far, and the rows taken.
pub fn vector_sum(
    target: &[u8],
    reference: &[u8],
    p: Spot,
    ux: usize,
    uy: usize,
    best: Candidate,
) -> VectorSum
    requires { MotionReady target.now reference.now p × Both p ux uy }
    ensures { (result ≡ vector_sum (spot_search target.now reference.now p) (lowered_mv ux uy) (error_found (best_so_far best))) × (result.sum < no_best) }
{
    block_sum(
        target,
        reference,
        p.x + ux / 2 - 512,
        p.y + uy / 2 - 512,
        p.stride,
        p.rows,
        p.side,
        ux % 2,
        uy % 2,
        best.error,
    )
}

// A candidate's sum against the best so far: only a strictly lower one replaces it.
fn replaced(s: VectorSum, ux: usize, uy: usize, best: Candidate) -> Candidate
    ensures { (s.sum < best.error → result ≡ record { ux = ux; uy = uy; error = s.sum }) × (best.error ≤ s.sum → result ≡ best) }
{
    if s.sum < best.error {
        Candidate {
            ux,
            uy,
            error: s.sum,
        }
    } else {
        best
    }
}

// One candidate: it replaces the best so far if it is allowed and its absolute error is strictly lower.
fn tried(
    target: &[u8],
    reference: &[u8],
    p: Spot,
    ux: usize,
    uy: usize,
    best: Candidate,
) -> Candidate
    requires { MotionReady target.now reference.now p × BestHeld best × (ux < raised_end) × (uy < raised_end) }
    ensures { (best_so_far result ≡ consider (spot_search target.now reference.now p) (lowered_mv ux uy) (best_so_far best)) × BestHeld result }
{
    if !axis_ok(p.side, p.x, p.width, p.px, ux) || !axis_ok(p.side, p.y, p.height, p.py, uy) {
        return best;
    }
    let s = vector_sum(target, reference, p, ux, uy, best);
    replaced(s, ux, uy, best)
}

// The places f of low <= centre + f - radius <= high among 0 .. 2 radius.
fn clip(radius: usize, low: usize, centre: usize, high: usize) -> Span
    requires { (radius ≤ 255) × (low ≤ centre) × (centre ≤ high) × (high < raised_end) }
    ensures { Clipped radius low centre high result }
{
    Span {
        from: radius.saturating_sub(centre - low),
        to: radius + radius.min(high - centre) + 1,
    }
}

// What the range of an axis is clipped to: the rest of its candidates is not codable, and need not be tried.
fn span_of(p: usize, radius: usize) -> Span
    requires { (992 ≤ p) × (p ≤ 1055) × (radius ≤ 255) }
    ensures { Spans p radius result }
{
    if p < 1024 {
        clip(radius, 496, p / 2, (p + 31) / 2)
    } else {
        clip(radius, (p - 31) / 2, p / 2, 527)
    }
}

// One full-sample candidate of a row that is allowed: the same sum, without the loops between samples.
fn full_tried(
    target: &[u8],
    reference: &[u8],
    p: Spot,
    ux: usize,
    uy: usize,
    best: Candidate,
) -> Candidate
    requires { MotionReady target.now reference.now p × BestHeld best × (ux < raised_end) × (ux % 2 ≡ 0) × (uy % 2 ≡ 0) × (axis_up p.side p.y p.height p.py uy ≡ true) }
    ensures { (best_so_far result ≡ consider (spot_search target.now reference.now p) (lowered_mv ux uy) (best_so_far best)) × BestHeld result }
{
    if !axis_ok(p.side, p.x, p.width, p.px, ux) {
        return best;
    }
    let s = sum_full(
        target,
        reference,
        p.x + ux / 2 - 512,
        p.y + uy / 2 - 512,
        p.stride,
        p.rows,
        p.side,
        best.error,
    );
    replaced(s, ux, uy, best)
}

// The full-sample candidates of one row.
fn row_best(
    target: &[u8],
    reference: &[u8],
    p: Spot,
    s: Span,
    uy: usize,
    first: Candidate,
) -> Candidate
    requires { MotionReady target.now reference.now p × BestHeld first × Spans p.px p.radius s × (uy < raised_end) × (uy % 2 ≡ 0) }
    ensures { (best_so_far result ≡ row_to (spot_search target.now reference.now p) (lowered uy) (best_so_far first) (2 * p.radius + 1)) × BestHeld result }
{
    if !axis_ok(p.side, p.y, p.height, p.py, uy) {
        return first;
    }
    let mut best = first;
    for k in s.from..s.to {
        best = full_tried(
            target,
            reference,
            p,
            2 * (p.px / 2 + k - p.radius),
            uy,
            best,
        );
    }
    best
}

// All rows of them.
fn full_best(target: &[u8], reference: &[u8], p: Spot, first: Candidate) -> Candidate
    requires { MotionReady target.now reference.now p × BestHeld first }
    ensures { (best_so_far result ≡ rows_to (spot_search target.now reference.now p) (best_so_far first) (2 * p.radius + 1)) × BestHeld result }
{
    let sx = span_of(p.px, p.radius);
    let sy = span_of(p.py, p.radius);
    let mut best = first;
    for k in sy.from..sy.to {
        best = row_best(
            target,
            reference,
            p,
            sx,
            2 * (p.py / 2 + k - p.radius),
            best,
        );
    }
    best
}

// The half-sample neighbour k of c, in raster order, its own place left out.
fn near_one(
    target: &[u8],
    reference: &[u8],
    p: Spot,
    c: Candidate,
    k: usize,
    best: Candidate,
) -> Candidate
    requires { MotionReady target.now reference.now p × BestHeld c × BestHeld best × (k < 9) }
    ensures { (k ≡ 4 → result ≡ best) × ((k ≡ 4 → ⊥) → best_so_far result ≡ consider (spot_search target.now reference.now p) (lowered_mv (c.ux + k % 3 - 1) (c.uy + k / 3 - 1)) (best_so_far best)) × BestHeld result }
{
    if k == 4 {
        return best;
    }
    tried(
        target,
        reference,
        p,
        c.ux + k % 3 - 1,
        c.uy + k / 3 - 1,
        best,
    )
}

fn near_best(target: &[u8], reference: &[u8], p: Spot, c: Candidate) -> Candidate
    requires { MotionReady target.now reference.now p × BestHeld c }
    ensures { (best_so_far result ≡ refined (spot_search target.now reference.now p) (best_so_far c)) × BestHeld result }
{
    let mut best = c;
    for k in 0..9 {
        best = near_one(target, reference, p, c, k, best);
    }
    best
}

// The whole search: zero, the full samples, the half samples around the best of these.
pub fn search_best(target: &[u8], reference: &[u8], p: Spot) -> Candidate
    requires { MotionReady target.now reference.now p }
    ensures { (best_so_far result ≡ search_best (spot_search target.now reference.now p)) × BestHeld result }
{
    let none = Candidate {
        ux: 1024,
        uy: 1024,
        error: 65536,
    };
    let zero = tried(target, reference, p, 1024, 1024, none);
    let full = full_best(target, reference, p, zero);
    near_best(target, reference, p, full)
}
