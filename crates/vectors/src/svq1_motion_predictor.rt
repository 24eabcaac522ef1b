// Motion vectors: their median, their prediction, and the vector that a difference makes.
pub mod inner;

ghost use Rattle.std.specs.Prelude.{◌≡◌, ◌+ℤ◌};
ghost use Rattle.vectors.specs.Vectors.{zero_mv, median, median_mv, predicted, clipped, final_mv};

// A motion vector, in half samples.
#[derive(Clone, Copy, Debug, PartialEq, Eq)]
pub struct Svq1Mv {
    pub x: i32,
    pub y: i32,
}

impl Svq1Mv {
    // The vector that SKIP and INTRA macroblocks store.
    pub const ZERO: Svq1Mv = Svq1Mv { x: 0, y: 0 };

    pub fn new(x: i32, y: i32) -> Self
        ensures { (result.x ≡ x) × (result.y ≡ y) }
    {
        Svq1Mv { x, y }
    }
}

// The vector that SKIP and INTRA macroblocks store, as a call that says so.
pub fn zero_vector() -> Svq1Mv
    ensures { result ≡ zero_mv }
{
    Svq1Mv::ZERO
}

// The middle one of three numbers.
pub fn median3(a: i32, b: i32, c: i32) -> i32
    ensures { result ≡ median a b c }
{
    a.min(b).max(a.max(b).min(c))
}

fn median_vector(a: Svq1Mv, b: Svq1Mv, c: Svq1Mv) -> Svq1Mv
    ensures { result ≡ median_mv a b c }
{
    Svq1Mv {
        x: median3(a.x, b.x, c.x),
        y: median3(a.y, b.y, c.y),
    }
}

// The predicted vector from the neighbouring blocks' vectors; off the plane there is none. A lone neighbour is taken as it is, and not
// put into a median with zeros.
#[tactic(auto, unfolding(crate::specs::Vectors::predicted))]
pub fn predict(left: Option<Svq1Mv>, top: Option<Svq1Mv>, top_right: Option<Svq1Mv>) -> Svq1Mv
    ensures { result ≡ predicted left top top_right }
{
    match (left, top, top_right) {
        (None, None, None) => Svq1Mv::ZERO,
        (Some(v), None, None) | (None, Some(v), None) | (None, None, Some(v)) => v,
        _ => median_vector(
            left.unwrap_or(Svq1Mv::ZERO),
            top.unwrap_or(Svq1Mv::ZERO),
            top_right.unwrap_or(Svq1Mv::ZERO),
        ),
    }
}

fn clip_wide(v: i64) -> i32
    ensures { result ≡ clipped v }
{
    v.clamp(-32, 31) as i32
}

// A component clipped to -32..31.
pub fn clip_component(value: i32) -> i32
    ensures { result ≡ clipped value }
{
    clip_wide(i64::from(value))
}

// The sum of two components, clipped; it is made in 64 bits, where it always fits.
fn clip_sum(a: i32, b: i32) -> i32
    ensures { result ≡ clipped (a +ℤ b) }
{
    clip_wide(i64::from(a) + i64::from(b))
}

// The vector of a predictor and a difference.
pub fn final_motion_vector(predictor: Svq1Mv, dx: i32, dy: i32) -> Svq1Mv
    ensures { result ≡ final_mv predictor dx dy }
{
    Svq1Mv {
        x: clip_sum(predictor.x, dx),
        y: clip_sum(predictor.y, dy),
    }
}
