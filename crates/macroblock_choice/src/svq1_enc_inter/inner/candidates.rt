// The ways to code a macroblock that are tried, what each weighs, and which of two is kept.
ghost use Rattle.std.specs.Prelude.{◌≡◌, List, ℕ, ◌≤◌, length};
ghost use Rattle.bits.specs.Basics.{pick};
ghost use Rattle.book.specs.Book.{book_refusal};
ghost use Rattle.vectors.specs.declared.svq1_motion_predictor.Svq1Mv.{Svq1Mv};
ghost use Rattle.mv_cache.specs.Neighbours.{Near};
ghost use Rattle.mv_cache.specs.CacheNeeds.{near_from};
ghost use Rattle.canvas.specs.Canvas.{blocks_along};
ghost use Rattle.macroblock.specs.Macroblock.{skipped, motion_mode};
ghost use Rattle.macroblock.specs.MacroblockLaws.{Codables};
ghost use Rattle.macroblock.specs.MotionForms.{motion_of, Differs};
ghost use Rattle.macroblock.specs.MacroblockNeeds.{given_by};
ghost use Rattle.macroblock.specs.SampleNeeds.{Stands};
ghost use Rattle.macroblock_choice.specs.CandidateNeeds.{choice_of, preferred, Stated, Skipping, CandidateOf};

use canvas::svq1_plane::Svq1PlaneCanvas;
use costs::svq1_enc_tree::cost;
use leaf_samples::svq1_enc_leaf::inner::distance_of;
use macroblock::svq1_enc_inter::inner::samples::take_block;
use macroblock::svq1_enc_inter::{MbMotion, Svq1MbMode};
use macroblock_bits::svq1_enc_inter::inner::{mb_mode_bits, motion_bits};
use mv_cache::svq1_mv_cache::NearBlocks;
use tree::svq1_enc_tree::{Block, no_blocks};
use vectors::svq1_motion_predictor::Svq1Mv;

// A way to code a macroblock: its mode, its motion with the vectors that its four blocks store, its tree, all its bits, and its error.
#[derive(Clone, Copy)]
pub struct MbCandidate {
    pub mode: Svq1MbMode,
    pub motion: MbMotion,
    pub vectors: [Svq1Mv; 4],
    pub blocks: [Block; 63],
    pub bits: u32,
    pub error: u32,
}

// SKIP, by its bits and its error.
fn skip_of(bits: u32, error: u32) -> MbCandidate
    ensures { Skipping bits error result }
{
    MbCandidate {
        mode: Svq1MbMode::Skip,
        motion: MbMotion::None,
        vectors: [Svq1Mv::ZERO; 4],
        blocks: no_blocks(),
        bits,
        error,
    }
}

// SKIP: the reference's block, which goes into `here`, against the target.
fn skip_over(
    canvas: Svq1PlaneCanvas,
    reference: &[u8],
    book: &[u8],
    k: usize,
    target: &[u8],
    here: &mut [u8; 256],
) -> MbCandidate
    requires { Stands (record { samples = reference.now; stride = canvas.stride; rows = canvas.rows }) (blocks_along canvas.width) k × (book_refusal book.now ≡ 0) × (length target.now ≡ 256) × (length here.old ≡ 256) }
    ensures { (choice_of result ≡ skipped) × ((codebook : List ℕ) (n : Near) → Stated (given_by canvas reference.now book.now codebook) target.now k n result) }
{
    let stride = canvas.stride;
    let rows = canvas.rows;
    take_block(reference, stride, rows, stride / 16, k, here);
    let error = distance_of(target, here);
    let bits = mb_mode_bits(book, Svq1MbMode::Skip);
    skip_of(bits, error)
}

pub fn skip_candidate(
    canvas: Svq1PlaneCanvas,
    reference: &[u8],
    book: &[u8],
    k: usize,
    target: &[u8],
) -> MbCandidate
    requires { Stands (record { samples = reference.now; stride = canvas.stride; rows = canvas.rows }) (blocks_along canvas.width) k × (book_refusal book.now ≡ 0) × (length target.now ≡ 256) }
    ensures { (choice_of result ≡ skipped) × ((codebook : List ℕ) (n : Near) → Stated (given_by canvas reference.now book.now codebook) target.now k n result) }
{
    let mut here = [0u8; 256];
    skip_over(canvas, reference, book, k, target, &mut here)
}

// The mode of a motion.
fn mode_of(motion: MbMotion) -> Svq1MbMode
    ensures { (vectors : List Svq1Mv) → result ≡ motion_mode (motion_of motion vectors) }
{
    match motion {
        MbMotion::None => Svq1MbMode::Intra,
        MbMotion::One { mv: _, diff: _ } => Svq1MbMode::Inter,
        MbMotion::Four => Svq1MbMode::Inter4Mv,
    }
}

// A motion and its plan's tree, bits and error: the mode's bits and the vectors' come before the tree's.
pub fn candidate_of(
    book: &[u8],
    near: NearBlocks,
    motion: MbMotion,
    vectors: [Svq1Mv; 4],
    blocks: [Block; 63],
    bits: u32,
    error: u32,
) -> MbCandidate
    requires { (book_refusal book.now ≡ 0) × Codables (near_from near) (motion_of motion vectors) × Differs (near_from near) motion × (bits ≤ 65536) }
    ensures { CandidateOf book.now (near_from near) motion vectors blocks bits error result }
{
    let mode = mode_of(motion);
    let head = mb_mode_bits(book, mode);
    let moved = motion_bits(book, near, motion, vectors);
    MbCandidate {
        mode,
        motion,
        vectors,
        blocks,
        bits: head + (moved + bits),
        error,
    }
}

// The later of two candidates where it costs less, or the same with fewer bits; else the earlier.
#[tactic(auto, using(std::proofs::lemmas::Bool::Decides::nat_tests), unfolding(crate::specs::CandidateNeeds::preferred))]
pub fn better(lambda: u64, best: MbCandidate, c: MbCandidate) -> MbCandidate
    ensures { result ≡ pick (preferred lambda c best) c best }
{
    let p = cost(lambda, c.bits, c.error);
    let q = cost(lambda, best.bits, best.error);
    if p < q || p == q && c.bits < best.bits {
        return c;
    }
    best
}
