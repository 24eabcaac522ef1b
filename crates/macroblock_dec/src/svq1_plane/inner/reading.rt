// One macroblock, read from a bit string and laid into the result slices.
ghost use Rattle.std.specs.Prelude.{◌≡◌, ◌*◌, ◌<◌, length, drop, replicate};
ghost use Rattle.bits.specs.Bits.{bits_of};
ghost use Rattle.book.specs.Book.{tables_of};
ghost use Rattle.vectors.specs.Vectors.{zero_mv};
ghost use Rattle.mv_cache.specs.CacheNeeds.{near_from, VectorSlices};
ghost use Rattle.mv_cache.specs.Neighbours.{near_of};
ghost use Rattle.tree.specs.TreeBits.{read_tree};
ghost use Rattle.tree.specs.WalkNeeds.{Reads};
ghost use Rattle.macroblock.specs.Mode.{mode_position};
ghost use Rattle.macroblock_dec.specs.ReadNeeds.{ReadReady, MbRead};
ghost use Rattle.macroblock.specs.MacroblockNeeds.{given_by, by_book};
ghost use Rattle.macroblock.specs.Reading.{read_behind, read_macroblock};
ghost use Rattle.macroblock_dec.specs.FindingNeeds.{FourFound, MotionFound, TreeFound, ChoiceFound, skipped_at, read_motion, difference_here, mode_difference};
ghost use Rattle.macroblock.specs.Slices.{slices_by};

use super::super::super::svq1_plane::inner::codes::{read_mb_mode, read_vector};
use bits::refusal::Refusal;
use book::svq1_blocktree::Svq1Level;
use book::svq1_vlc::Svq1Half;
use canvas::svq1_plane::Svq1PlaneCanvas;
use macroblock::svq1_enc_inter::inner::laying::lay_choice;
use macroblock::svq1_enc_inter::inner::samples::half_of;
use macroblock::svq1_enc_inter::{MbMotion, Svq1MbMode};
use mv_cache::svq1_mv_cache::inner::near_blocks;
use mv_cache::svq1_mv_cache::{
    NearBlocks, predict_first, predict_fourth, predict_one, predict_second, predict_third,
};
use tree::svq1_enc_tree::inner::walk::ReadTree;
use tree::svq1_enc_tree::{Block, no_blocks};
use vectors::svq1_motion_predictor::Svq1Mv;

// Four vectors, a motion with its four vectors, and a macroblock, that were read: each with the bit behind it.
#[derive(Clone, Copy)]
pub struct ReadFour {
    pub next: usize,
    pub vectors: [Svq1Mv; 4],
}

#[derive(Clone, Copy)]
pub struct ReadMotion {
    pub next: usize,
    pub motion: MbMotion,
    pub vectors: [Svq1Mv; 4],
}

// SKIP stands as a flag beside a motion and a tree, as `lay_choice` takes them.
#[derive(Clone, Copy)]
pub struct ReadChoice {
    pub next: usize,
    pub skip: bool,
    pub motion: MbMotion,
    pub vectors: [Svq1Mv; 4],
    pub blocks: [Block; 63],
}

// The four vectors that stand at bit `at`, each predicted from those before it.
fn read_four(s: &[u8], at: usize, book: &[u8], near: NearBlocks) -> Result<ReadFour, Refusal>
    requires { Reads book.now 5 (length s.now) at }
    ensures { FourFound s.now book.now (near_from near) at result }
{
    let first = read_vector(s, at, book, predict_first(near))?;
    let second = read_vector(s, first.next, book, predict_second(near, first.mv))?;
    let third = read_vector(
        s,
        second.next,
        book,
        predict_third(near, first.mv, second.mv),
    )?;
    let fourth = read_vector(
        s,
        third.next,
        book,
        predict_fourth(first.mv, second.mv, third.mv),
    )?;
    Ok(ReadFour {
        next: fourth.next,
        vectors: [first.mv, second.mv, third.mv, fourth.mv],
    })
}

// No motion, which takes no bits, and zero vectors.
fn no_motion(at: usize) -> ReadMotion
    ensures { result ≡ record { next = at; motion = MbMotion.None; vectors = replicate 4 zero_mv } }
{
    ReadMotion {
        next: at,
        motion: MbMotion::None,
        vectors: [Svq1Mv::ZERO; 4],
    }
}

// The motion of a mode that stands at bit `at`; INTRA has none, and neither has SKIP.
fn read_motion(
    s: &[u8],
    at: usize,
    book: &[u8],
    near: NearBlocks,
    mode: Svq1MbMode,
) -> Result<ReadMotion, Refusal>
    requires { Reads book.now 5 (length s.now) at }
    ensures { MotionFound s.now (read_motion (by_book book.now) (near_from near) (mode_position mode) (drop at (bits_of s.now))) (difference_here s.now book.now at) result }
{
    match mode {
        Svq1MbMode::Inter => {
            let one = read_vector(s, at, book, predict_one(near))?;
            Ok(ReadMotion {
                next: one.next,
                motion: MbMotion::One {
                    mv: one.mv,
                    diff: one.diff,
                },
                vectors: [one.mv; 4],
            })
        }
        Svq1MbMode::Inter4Mv => {
            let four = read_four(s, at, book, near)?;
            let vectors = four.vectors;
            Ok(ReadMotion {
                next: four.next,
                motion: MbMotion::Four,
                vectors,
            })
        }
        Svq1MbMode::Intra | Svq1MbMode::Skip => Ok(no_motion(at)),
    }
}

// The tree of a macroblock that stands at bit `at`.
fn decode_mb_block_tree(
    s: &[u8],
    at: usize,
    half: Svq1Half,
    book: &[u8],
) -> Result<ReadTree, Refusal>
    requires { Reads book.now 5 (length s.now) at }
    ensures { TreeFound s.now (read_tree (tables_of book.now half) 5 (drop at (bits_of s.now))) half result }
{
    tree::svq1_enc_tree::inner::walk::read(s, at, half, book, Svq1Level::L5)
}

// SKIP, which has nothing behind its mode.
fn skipped_at(at: usize) -> ReadChoice
    ensures { result ≡ skipped_at at }
{
    let blocks = no_blocks();
    ReadChoice {
        next: at,
        skip: true,
        motion: MbMotion::None,
        vectors: [Svq1Mv::ZERO; 4],
        blocks,
    }
}

// What stands behind a mode other than SKIP: its motion and its tree.
fn read_coded(
    s: &[u8],
    at: usize,
    book: &[u8],
    near: NearBlocks,
    mode: Svq1MbMode,
) -> Result<ReadChoice, Refusal>
    requires { Reads book.now 5 (length s.now) at × (mode_position mode < 3) }
    ensures { ChoiceFound s.now (read_behind (by_book book.now) (near_from near) (mode_position mode) (drop at (bits_of s.now))) (difference_here s.now book.now at) result }
{
    let moved = read_motion(s, at, book, near, mode)?;
    let motion = moved.motion;
    let vectors = moved.vectors;
    let tree = decode_mb_block_tree(s, moved.next, half_of(motion), book)?;
    let blocks = tree.blocks;
    Ok(ReadChoice {
        next: tree.next,
        skip: false,
        motion,
        vectors,
        blocks,
    })
}

// What stands behind a mode: nothing behind SKIP.
fn read_behind(
    s: &[u8],
    at: usize,
    book: &[u8],
    near: NearBlocks,
    mode: Svq1MbMode,
) -> Result<ReadChoice, Refusal>
    requires { Reads book.now 5 (length s.now) at }
    ensures { ChoiceFound s.now (read_behind (by_book book.now) (near_from near) (mode_position mode) (drop at (bits_of s.now))) (difference_here s.now book.now at) result }
{
    match mode {
        Svq1MbMode::Skip => Ok(skipped_at(at)),
        _ => read_coded(s, at, book, near, mode),
    }
}

// The macroblock that stands at bit `at`, among these neighbours.
fn read_choice(s: &[u8], at: usize, book: &[u8], near: NearBlocks) -> Result<ReadChoice, Refusal>
    requires { Reads book.now 5 (length s.now) at }
    ensures { ChoiceFound s.now (read_macroblock (by_book book.now) (near_from near) (drop at (bits_of s.now))) (mode_difference s.now book.now at) result }
{
    let read = read_mb_mode(s, at, book)?;
    read_behind(s, read.next, book, near, read.mode)
}

// The macroblock that stands at bit `at`, as macroblock k of a plane of cols x rows macroblocks whose vectors lie in vx and vy.
fn read_among(
    s: &[u8],
    at: usize,
    book: &[u8],
    vx: &[u8],
    vy: &[u8],
    cols: usize,
    rows: usize,
    k: usize,
) -> Result<ReadChoice, Refusal>
    requires { Reads book.now 5 (length s.now) at × VectorSlices cols rows vx.now vy.now × (k < rows * cols) }
    ensures { ChoiceFound s.now (read_macroblock (by_book book.now) (near_of cols rows vx.now vy.now k) (drop at (bits_of s.now))) (mode_difference s.now book.now at) result }
{
    let near = near_blocks(vx, vy, cols, rows, k);
    read_choice(s, at, book, near)
}

// Macroblock k, read from bit `at` on and laid into the result slices; the answer is the bit behind it. A refused one leaves the slices as
// they were. `raised` is the raised codebook.
pub fn read_macroblock(
    canvas: Svq1PlaneCanvas,
    reference: &[u8],
    book: &[u8],
    codebook: &[u8],
    raised: &[u8],
    s: &[u8],
    at: usize,
    k: usize,
    recon: &mut [u8],
    vx: &mut [u8],
    vy: &mut [u8],
) -> Result<usize, Refusal>
    requires { ReadReady (given_by canvas reference.now book.now codebook.now) raised.now (slices_by recon.old vx.old vy.old) k (length s.now) at }
    ensures { MbRead (given_by canvas reference.now book.now codebook.now) s.now at k (slices_by recon.old vx.old vy.old) result (slices_by recon.new vx.new vy.new) }
{
    let read = read_among(s, at, book, vx, vy, canvas.stride / 16, canvas.rows / 16, k)?;
    let vectors = read.vectors;
    let blocks = read.blocks;
    lay_choice(
        canvas,
        reference,
        raised,
        k,
        read.skip,
        read.motion,
        vectors,
        blocks,
        recon,
        vx,
        vy,
    );
    Ok(read.next)
}
