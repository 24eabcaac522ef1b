// A macroblock's neighbours, and the predictions made of them.
pub mod inner;

ghost use Rattle.std.specs.Prelude.{◌≡◌};
ghost use Rattle.mv_cache.specs.Neighbours.{for_one, for_first, for_second, for_third, for_fourth};
ghost use Rattle.mv_cache.specs.CacheNeeds.{near_from};

use vectors::svq1_motion_predictor::{Svq1Mv, predict};

// The vectors of the seven neighbours outside a macroblock that predictions use, none off the plane: left of its upper and its lower
// blocks; two 8x8 rows above it, over its first column and to its right; one row above it, over its first, its second and the column
// to its right.
#[derive(Clone, Copy)]
pub struct NearBlocks {
    pub left: Option<Svq1Mv>,
    pub low_left: Option<Svq1Mv>,
    pub above: Option<Svq1Mv>,
    pub above_right: Option<Svq1Mv>,
    pub top: Option<Svq1Mv>,
    pub top_next: Option<Svq1Mv>,
    pub top_right: Option<Svq1Mv>,
}

// The predictor of the one vector of an INTER macroblock.
pub fn predict_one(near: NearBlocks) -> Svq1Mv
    ensures { result ≡ for_one (near_from near) }
{
    predict(near.left, near.above, near.above_right)
}

// The predictors of the four vectors of an INTER_4MV macroblock, each from those before it.
pub fn predict_first(near: NearBlocks) -> Svq1Mv
    ensures { result ≡ for_first (near_from near) }
{
    predict(near.left, near.top, near.top_right)
}

pub fn predict_second(near: NearBlocks, first: Svq1Mv) -> Svq1Mv
    ensures { result ≡ for_second (near_from near) first }
{
    predict(Some(first), near.top_next, near.top_right)
}

pub fn predict_third(near: NearBlocks, first: Svq1Mv, second: Svq1Mv) -> Svq1Mv
    ensures { result ≡ for_third (near_from near) first second }
{
    predict(near.low_left, Some(first), Some(second))
}

pub fn predict_fourth(first: Svq1Mv, second: Svq1Mv, third: Svq1Mv) -> Svq1Mv
    ensures { result ≡ for_fourth first second third }
{
    predict(Some(third), Some(second), Some(first))
}
