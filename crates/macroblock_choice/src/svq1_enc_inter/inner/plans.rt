// A motion with its plan, as a candidate.
ghost use Rattle.std.specs.Prelude.{◌≡◌, length};
ghost use Rattle.mv_cache.specs.CacheNeeds.{near_from};
ghost use Rattle.macroblock.specs.MacroblockLaws.{Codables};
ghost use Rattle.macroblock.specs.Choice.{open_terms, plane_terms};
ghost use Rattle.macroblock.specs.MotionForms.{motion_of};
ghost use Rattle.macroblock.specs.MacroblockNeeds.{given_by};
ghost use Rattle.macroblock_choice.specs.ChosenNeeds.{planning_by, Placing, Carries, Made};
ghost use Rattle.plan.specs.PlanNeeds.{PlanFound};

use super::super::super::svq1_enc_inter::inner::candidates::{MbCandidate, candidate_of};
use book::svq1_blocktree::Svq1Level;
use book::svq1_vlc::Svq1Half;
use canvas::svq1_plane::Svq1PlaneCanvas;
use leaf::svq1_enc_leaf::LeafTerms;
use macroblock::svq1_enc_inter::inner::samples::{baseline_of, half_of};
use macroblock::svq1_enc_inter::{MbMotion, Settings};
use mv_cache::svq1_mv_cache::NearBlocks;
use plan::svq1_enc_tree::MbPlan;
use plan::svq1_enc_tree::inner::plan;
use vectors::svq1_motion_predictor::Svq1Mv;

// Terms with every stage of a level open.
fn open_terms(half: Svq1Half, skip: bool, margin: u32) -> LeafTerms
    ensures { result ≡ open_terms half skip margin }
{
    LeafTerms {
        half,
        cap: 6,
        skip,
        margin,
    }
}

// In a plane leaves may skip in the inter half; the margin is the same in both.
fn plane_terms(margin: u32, half: Svq1Half) -> LeafTerms
    ensures { result ≡ plane_terms margin half }
{
    match half {
        Svq1Half::Intra => open_terms(half, false, margin),
        Svq1Half::Inter => open_terms(half, true, margin),
    }
}

// The plan for a motion over its baseline, which goes into `under`.
fn plan_over(
    canvas: Svq1PlaneCanvas,
    reference: &[u8],
    book: &[u8],
    codebook: &[u8],
    raised: &[u8],
    settings: Settings,
    k: usize,
    target: &[u8],
    motion: MbMotion,
    vectors: [Svq1Mv; 4],
    under: &mut [u8; 256],
) -> MbPlan
    requires { Placing (given_by canvas reference.now book.now codebook.now) raised.now k target.now × (length under.old ≡ 256) }
    ensures { PlanFound (planning_by (given_by canvas reference.now book.now codebook.now) target.now settings k (motion_of motion vectors)) result }
{
    let terms = plane_terms(settings.margin, half_of(motion));
    baseline_of(canvas, reference, k, motion, vectors, under);
    plan(
        terms,
        book,
        codebook,
        raised,
        settings.lambda,
        Svq1Level::L5,
        target,
        under,
    )
}

fn plan_motion(
    canvas: Svq1PlaneCanvas,
    reference: &[u8],
    book: &[u8],
    codebook: &[u8],
    raised: &[u8],
    settings: Settings,
    k: usize,
    target: &[u8],
    motion: MbMotion,
    vectors: [Svq1Mv; 4],
) -> MbPlan
    requires { Placing (given_by canvas reference.now book.now codebook.now) raised.now k target.now }
    ensures { PlanFound (planning_by (given_by canvas reference.now book.now codebook.now) target.now settings k (motion_of motion vectors)) result }
{
    let mut under = [0u8; 256];
    plan_over(
        canvas, reference, book, codebook, raised, settings, k, target, motion, vectors, &mut under,
    )
}

// A motion with its plan.
pub fn coded_candidate(
    canvas: Svq1PlaneCanvas,
    reference: &[u8],
    book: &[u8],
    codebook: &[u8],
    raised: &[u8],
    settings: Settings,
    k: usize,
    target: &[u8],
    near: NearBlocks,
    motion: MbMotion,
    vectors: [Svq1Mv; 4],
) -> MbCandidate
    requires { Placing (given_by canvas reference.now book.now codebook.now) raised.now k target.now × Codables (near_from near) (motion_of motion vectors) × Carries (near_from near) motion vectors }
    ensures { Made (given_by canvas reference.now book.now codebook.now) target.now settings k (near_from near) (motion_of motion vectors) result }
{
    let p = plan_motion(
        canvas, reference, book, codebook, raised, settings, k, target, motion, vectors,
    );
    let blocks = p.blocks;
    candidate_of(book, near, motion, vectors, blocks, p.bits, p.error)
}
