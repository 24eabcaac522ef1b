// One macroblock, written: its bits put, and its samples and vectors laid into the result slices.
ghost use Rattle.std.specs.Prelude.{◌≡◌, ◌++◌, length};
ghost use Rattle.bits.specs.BitNeeds.{Wrote};
ghost use Rattle.book.specs.Book.{tables_of};
ghost use Rattle.mv_cache.specs.CacheNeeds.{near_from};
ghost use Rattle.tree.specs.NodeForms.{tree_of};
ghost use Rattle.tree.specs.TreeBits.{tree_bits};
ghost use Rattle.macroblock.specs.Macroblock.{half_of, motion_bits, choice_bits};
ghost use Rattle.macroblock.specs.MotionForms.{motion_of, Differs};
ghost use Rattle.macroblock.specs.MacroblockNeeds.{by_book, given_by};
ghost use Rattle.macroblock_choice.specs.CandidateNeeds.{skips, choice_of};
ghost use Rattle.macroblock_enc.specs.WrittenNeeds.{CodedRoom, PutReady, LayReady, LaysCandidate, WriteReady, CandidateWritten, CandidateLaid, MbReady, MbWritten};
ghost use Rattle.macroblock_enc.specs.LimitForms.{limit_of, Spends};
ghost use Rattle.macroblock_choice.specs.ChosenNeeds.{task_in};
ghost use Rattle.macroblock.specs.Slices.{slices_by, lent_by};

use super::super::super::svq1_enc_inter::inner::limit::{BitLimit, room_at};
use bits::refusal::Refusal;
use canvas::svq1_plane::Svq1PlaneCanvas;
use canvas::svq1_plane::inner::blocks_along;
use macroblock::svq1_enc_inter::inner::laying::lay_choice;
use macroblock::svq1_enc_inter::inner::samples::half_of;
use macroblock::svq1_enc_inter::{MbMotion, Settings, Svq1MbMode};
use macroblock_bits::svq1_enc_inter::inner::{put_mode, put_motion};
use macroblock_choice::svq1_enc_inter::inner::candidates::MbCandidate;
use macroblock_choice::svq1_enc_inter::inner::choice::choose_macroblock;
use mv_cache::svq1_mv_cache::NearBlocks;
use mv_cache::svq1_mv_cache::inner::near_blocks;
use tree::svq1_enc_tree::Block;
use tree::svq1_enc_tree::inner::walk::emit;
use vectors::svq1_motion_predictor::Svq1Mv;

fn is_skip(mode: Svq1MbMode) -> bool
    ensures { result ≡ skips mode }
{
    matches!(mode, Svq1MbMode::Skip)
}

// What stands behind the mode: the vectors and the tree.
fn put_coded(
    out: &mut [u8],
    at: usize,
    book: &[u8],
    near: NearBlocks,
    motion: MbMotion,
    vectors: [Svq1Mv; 4],
    blocks: [Block; 63],
) -> usize
    requires { CodedRoom book.now (near_from near) (motion_of motion vectors) (tree_of blocks) (length out.old) at × Differs (near_from near) motion }
    ensures { Wrote out.old at (motion_bits (by_book book.now) (near_from near) (motion_of motion vectors) ++ tree_bits (tables_of book.now (half_of (motion_of motion vectors))) (tree_of blocks)) result out.new }
{
    let half = half_of(motion);
    let p = put_motion(out, at, book, near, motion, vectors);
    emit(blocks, half, book, out, p)
}

// All bits of a candidate, from bit `at` on.
fn put_candidate(out: &mut [u8], at: usize, book: &[u8], near: NearBlocks, c: MbCandidate) -> usize
    requires { PutReady book.now (near_from near) c (length out.old) at }
    ensures { Wrote out.old at (choice_bits (by_book book.now) (near_from near) (choice_of c)) result out.new }
{
    let mode = c.mode;
    let p = put_mode(out, at, book, mode);
    if is_skip(mode) {
        return p;
    }
    let motion = c.motion;
    let vectors = c.vectors;
    let blocks = c.blocks;
    put_coded(out, p, book, near, motion, vectors, blocks)
}

// A candidate's samples and vectors into the result slices.
fn lay_candidate(
    canvas: Svq1PlaneCanvas,
    reference: &[u8],
    raised: &[u8],
    k: usize,
    c: MbCandidate,
    recon: &mut [u8],
    vx: &mut [u8],
    vy: &mut [u8],
)
    requires { LayReady canvas reference.now (length raised.now) k c (slices_by recon.old vx.old vy.old) }
    ensures { LaysCandidate canvas reference.now raised.now k c (slices_by recon.old vx.old vy.old) (slices_by recon.new vx.new vy.new) }
{
    let mode = c.mode;
    let skip = is_skip(mode);
    let motion = c.motion;
    let vectors = c.vectors;
    let blocks = c.blocks;
    lay_choice(
        canvas, reference, raised, k, skip, motion, vectors, blocks, recon, vx, vy,
    );
}

// A macroblock that was written, or refused by `NoRoom` where it does not fit and everything lent is as it was. Its mode, bits and error are what was chosen,
// in both cases; `next` is the bit behind it, or where it would have begun.
#[derive(Clone, Copy)]
pub struct WrittenMb {
    pub refused: Option<Refusal>,
    pub mode: Svq1MbMode,
    pub bits: u32,
    pub error: u32,
    pub next: usize,
}

// A candidate written, where it fits.
fn write_chosen(
    canvas: Svq1PlaneCanvas,
    reference: &[u8],
    book: &[u8],
    raised: &[u8],
    near: NearBlocks,
    c: MbCandidate,
    out: &mut [u8],
    at: usize,
    k: usize,
    recon: &mut [u8],
    vx: &mut [u8],
    vy: &mut [u8],
) -> WrittenMb
    requires { WriteReady book.now (near_from near) c (length out.old) at × LayReady canvas reference.now (length raised.now) k c (slices_by recon.old vx.old vy.old) }
    ensures candidate_written { CandidateWritten book.now (near_from near) c out.old at result out.new }
    ensures candidate_laid { CandidateLaid canvas reference.now raised.now k c (length out.old) at (slices_by recon.old vx.old vy.old) (slices_by recon.new vx.new vy.new) }
{
    let mode = c.mode;
    let bits = c.bits;
    let error = c.error;
    if at + bits as usize <= 8 * out.len() {
        let next = put_candidate(out, at, book, near, c);
        lay_candidate(canvas, reference, raised, k, c, recon, vx, vy);
        return WrittenMb {
            refused: None,
            mode,
            bits,
            error,
            next,
        };
    }
    WrittenMb {
        refused: Some(Refusal::NoRoom),
        mode,
        bits,
        error,
        next: at,
    }
}

// Macroblock k of a plane, from bit `at` of `out` on: the best of the ways that are tried for it and fit, with so many bits spent on those before it.
// `raised` is the raised codebook.
pub fn write_macroblock(
    canvas: Svq1PlaneCanvas,
    source: &[u8],
    reference: &[u8],
    book: &[u8],
    codebook: &[u8],
    raised: &[u8],
    settings: Settings,
    limit: Option<BitLimit>,
    spent: u64,
    out: &mut [u8],
    at: usize,
    k: usize,
    recon: &mut [u8],
    vx: &mut [u8],
    vy: &mut [u8],
) -> WrittenMb
    requires { MbReady (given_by canvas reference.now book.now codebook.now) raised.now source.now k (length out.old) at (slices_by recon.old vx.old vy.old) × Spends (given_by canvas reference.now book.now codebook.now) limit k spent }
    ensures { MbWritten (given_by canvas reference.now book.now codebook.now) (task_in source.now settings (limit_of limit)) k spent at (lent_by out.old (slices_by recon.old vx.old vy.old)) result (lent_by out.new (slices_by recon.new vx.new vy.new)) }
{
    let cols = blocks_along(canvas.width);
    let rows = blocks_along(canvas.height);
    let near = near_blocks(vx, vy, cols, rows, k);
    let room = room_at(limit, spent, book, cols, rows, k);
    let c = choose_macroblock(
        canvas, source, reference, book, codebook, raised, settings, k, near, room,
    );
    write_chosen(
        canvas, reference, book, raised, near, c, out, at, k, recon, vx, vy,
    )
}
