// Which blocks a tree has, and the leaf of each.
ghost use Rattle.std.specs.Prelude.{◌≡◌, ◌-◌, ◌^◌, ◌<◌, ◌≤◌, length};
ghost use Rattle.book.specs.Level.{level_number, width};
ghost use Rattle.tree.specs.Blocks.{level as own_level, block_of};
ghost use Rattle.tree_samples.specs.SubtreeForms.{in_tree, BlockPlaced};
ghost use Rattle.plan.specs.PlannedFormsLaws.{LeafAt};
ghost use Rattle.plan.specs.PlanNeeds.{LeafReady, Scratch, BlockLeaf, PlanReady, BlockReady, planning_in, leaf_record};

use super::super::super::svq1_enc_tree::PlannedBlock;
use book::svq1_blocktree::Svq1Level;
use leaf::svq1_enc_leaf::inner::book_leaf_bits;
use leaf::svq1_enc_leaf::{LeafCode, LeafTerms};
use leaf_search::svq1_enc_leaf::LeafChoice;
use leaf_search::svq1_enc_leaf::inner::level_leaf;
use tree::svq1_enc_tree::inner::level_of;
use tree::svq1_enc_tree::inner::walk::first_of;
use tree_samples::svq1_enc_tree::inner::{gather_block, place_of};

// How many blocks of a level lie under a block `n` levels above it.
fn blocks_under(n: usize) -> usize
    requires { n ≤ 5 }
    ensures { result ≡ 2 ^ n }
{
    1 << n
}

// Whether block i lies under the first block of a level: of its own level's blocks it is among the first that do.
pub fn in_tree(level: Svq1Level, i: usize) -> bool
    requires { i < 63 }
    ensures { result ≡ in_tree (level_number level) i }
{
    let own = level_of(i);
    let d = level.number();
    let e = own.number();
    if d < e {
        return false;
    }
    i - first_of(own) < blocks_under(d - e)
}

// Block i of a plane that is a block of a level.
pub fn block_of(m: &[u8], level: Svq1Level, i: usize, out: &mut [u8])
    requires { BlockPlaced (level_number level) i (length m.now) (length out.old) }
    ensures { out.new ≡ block_of (width (level_number level)) (own_level i) i m.now }
{
    let whole = level.block_dims();
    let dims = level_of(i).block_dims();
    let s = whole.width;
    gather_block(m, s, place_of(s, i), dims.width, dims.height, out);
}

// The leaf choice of block i of a block of a level, by the raised codebook. `t` and `p` are scratch of block i's size, `sums` and `shown` of 256 samples.
fn gathered_leaf(
    terms: LeafTerms,
    raised: &[u8],
    level: Svq1Level,
    target: &[u8],
    predictor: &[u8],
    i: usize,
    t: &mut [u8],
    p: &mut [u8],
    sums: &mut [u16],
    shown: &mut [u8],
) -> LeafChoice
    requires leaf_ready { LeafReady terms (length raised.now) (level_number level) (length target.now) (length predictor.now) i }
    requires scratch { Scratch (own_level i) (length t.old) (length p.old) (length sums.old) (length shown.old) }
    ensures { BlockLeaf terms raised.now (level_number level) target.now predictor.now i result }
{
    block_of(target, level, i, t);
    block_of(predictor, level, i, p);
    level_leaf(level_of(i), terms, t, p, sums, shown, raised)
}

// The same with scratch of any size that is large enough.
fn cut_leaf(
    terms: LeafTerms,
    raised: &[u8],
    level: Svq1Level,
    target: &[u8],
    predictor: &[u8],
    i: usize,
    t: &mut [u8],
    p: &mut [u8],
    sums: &mut [u16],
    shown: &mut [u8],
) -> LeafChoice
    requires leaf_ready { LeafReady terms (length raised.now) (level_number level) (length target.now) (length predictor.now) i }
    requires t_len { (length t.old ≡ 256) × (length p.old ≡ 256) × (length sums.old ≡ 256) × (length shown.old ≡ 256) }
    ensures { BlockLeaf terms raised.now (level_number level) target.now predictor.now i result }
{
    let n = level_of(i).vector_length();
    gathered_leaf(
        terms,
        raised,
        level,
        target,
        predictor,
        i,
        &mut t[0..n],
        &mut p[0..n],
        sums,
        shown,
    )
}

// The same with scratch of its own.
fn leaf_in(
    terms: LeafTerms,
    raised: &[u8],
    level: Svq1Level,
    target: &[u8],
    predictor: &[u8],
    i: usize,
) -> LeafChoice
    requires { LeafReady terms (length raised.now) (level_number level) (length target.now) (length predictor.now) i }
    ensures { BlockLeaf terms raised.now (level_number level) target.now predictor.now i result }
{
    let mut t = [0u8; 256];
    let mut p = [0u8; 256];
    let mut sums = [0u16; 256];
    let mut shown = [0u8; 256];
    cut_leaf(
        terms, raised, level, target, predictor, i, &mut t, &mut p, &mut sums, &mut shown,
    )
}

// A leaf choice and its bits. That there are six stage indices is known here, where they come as an array.
fn as_leaf(code: LeafCode, stages: [u8; 6], bits: u32, error: u32) -> PlannedBlock
    ensures { (result ≡ leaf_record code stages bits error) × (length stages ≡ 6) }
{
    PlannedBlock {
        split: false,
        bits,
        error,
        code,
        stages,
    }
}

// Block i as a leaf, by the book and the codebook. Lambda plays no part in it.
pub fn plan_leaf(
    terms: LeafTerms,
    book: &[u8],
    codebook: &[u8],
    raised: &[u8],
    level: Svq1Level,
    target: &[u8],
    predictor: &[u8],
    i: usize,
) -> PlannedBlock
    requires { PlanReady terms book.now codebook.now raised.now (level_number level) target.now predictor.now × BlockReady (level_number level) i }
    ensures { LeafAt (planning_in terms book.now codebook.now 0 (level_number level) target.now predictor.now) i result }
{
    let half = terms.half;
    let c = leaf_in(terms, raised, level, target, predictor, i);
    let code = c.code;
    let stages = c.stages;
    let bits = book_leaf_bits(book, level_of(i), half, code);
    as_leaf(code, stages, bits, c.error)
}
