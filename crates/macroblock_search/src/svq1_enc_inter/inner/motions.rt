// The motions that are tried for a macroblock: one vector and four, where their searches find them, and none.
ghost use Rattle.std.specs.Prelude.{◌≡◌, []};
ghost use Rattle.bits.specs.Basics.{pick};
ghost use Rattle.mv_cache.specs.NeighboursLaws.{Around};
ghost use Rattle.mv_cache.specs.CacheNeeds.{near_from};
ghost use Rattle.macroblock.specs.Choice.{single_tried, four_tried};
ghost use Rattle.macroblock_search.specs.SearchNeeds.{Searching, MotionsFound, still_motion};

use super::super::super::svq1_enc_inter::inner::searches::{
    corner_of, find_vector, first_pair, second_pair,
};
use canvas::svq1_plane::Svq1PlaneCanvas;
use macroblock::svq1_enc_inter::MbMotion;
use mv_cache::svq1_mv_cache::{NearBlocks, predict_one};
use vectors::svq1_motion_predictor::Svq1Mv;
use vectors::svq1_motion_predictor::inner::difference_of;

// A motion to try, with the vectors that its four blocks store.
#[derive(Clone, Copy)]
pub struct TriedMotion {
    pub motion: MbMotion,
    pub vectors: [Svq1Mv; 4],
}

// INTRA's: no vector, and zero stored.
pub fn still_motion() -> TriedMotion
    ensures { result ≡ still_motion }
{
    TriedMotion {
        motion: MbMotion::None,
        vectors: [Svq1Mv::ZERO; 4],
    }
}

// INTER's motion, if its search finds a vector.
pub fn single_motion(
    canvas: Svq1PlaneCanvas,
    reference: &[u8],
    target: &[u8],
    near: NearBlocks,
    k: usize,
    radius: u8,
) -> Option<TriedMotion>
    requires { Searching canvas reference.now target.now k × Around (near_from near) }
    ensures { MotionsFound canvas reference.now target.now radius k (near_from near) (λ g t. single_tried g t k (near_from near)) result }
{
    let p = predict_one(near);
    let at = corner_of(canvas, k);
    let mv = find_vector(canvas, reference, target, 16, at.x, at.y, p, radius)?;
    let diff = difference_of(p, mv);
    Some(TriedMotion {
        motion: MbMotion::One { mv, diff },
        vectors: [mv; 4],
    })
}

// INTER_4MV's, where the flag is set and its searches find all four.
pub fn four_motion(
    canvas: Svq1PlaneCanvas,
    reference: &[u8],
    target: &[u8],
    near: NearBlocks,
    k: usize,
    radius: u8,
    four: bool,
) -> Option<TriedMotion>
    requires { Searching canvas reference.now target.now k × Around (near_from near) }
    ensures { MotionsFound canvas reference.now target.now radius k (near_from near) (λ g t. pick four (four_tried g t k (near_from near)) []) result }
{
    if !four {
        return None;
    }
    let p = first_pair(canvas, reference, target, near, k, radius)?;
    let q = second_pair(
        canvas, reference, target, near, p.first, p.second, k, radius,
    )?;
    Some(TriedMotion {
        motion: MbMotion::Four,
        vectors: [p.first, p.second, q.first, q.second],
    })
}
