// The plan of a block: the leaf choice of every block of its tree, which of them are split, and the tree that this makes.
// Functions that only the crates of this repository call. Most have a `requires`: the caller, proved too, meets it.
pub mod leaves;

ghost use Rattle.std.specs.Prelude.{◌≡◌, ◌+◌, length, get_or};
ghost use Rattle.bits.specs.Basics.{All};
ghost use Rattle.book.specs.Level.{level_number};
ghost use Rattle.tree.specs.Blocks.{block_count};
ghost use Rattle.tree.specs.NodeForms.{node_of, tree_of, CleanBlock};
ghost use Rattle.tree.specs.TreeBits.{grow};
ghost use Rattle.plan.specs.PlannedForms.{Light, CleanChoice, decided};
ghost use Rattle.plan.specs.PlannedFormsLaws.{blank, PlannedAt, Done};
ghost use Rattle.plan.specs.PlanNeeds.{PlanReady, BlockReady, planning_in, planned_node, PlanFound};
ghost use Rattle.plan.specs.FrontNeeds.{FrontReady, FrontShown};

use super::super::svq1_enc_tree::inner::leaves::{in_tree, plan_leaf};
use super::super::svq1_enc_tree::{MbPlan, PlannedBlock};
use book::svq1_blocktree::Svq1Level;
use book::svq1_vlc::Svq1Half;
use costs::svq1_enc_tree::cost;
use leaf::svq1_enc_leaf::{LeafCode, LeafTerms};
use tree::svq1_enc_tree::inner::walk::{first_of, is_reached};
use tree::svq1_enc_tree::{Block, TreeNode, no_blocks};
use tree_samples::svq1_enc_tree::inner::rebuild::rebuild;

// The leaf `l`, or a split into parts planned as `x` and `y` if that is strictly cheaper.
fn decide(lambda: u64, l: PlannedBlock, x: PlannedBlock, y: PlannedBlock) -> PlannedBlock
    requires { Light l × Light x × Light y }
    ensures { result ≡ decided lambda l x y }
{
    let leaf_bits = l.bits + 1;
    let split_bits = x.bits + y.bits + 1;
    let split_error = x.error + y.error;
    let code = l.code;
    let stages = l.stages;
    if cost(lambda, split_bits, split_error) < cost(lambda, leaf_bits, l.error) {
        PlannedBlock {
            split: true,
            bits: split_bits,
            error: split_error,
            code,
            stages,
        }
    } else {
        PlannedBlock {
            split: false,
            bits: leaf_bits,
            error: l.error,
            code,
            stages,
        }
    }
}

// Block i as the plan has it, where `a` holds the blocks behind it.
fn plan_block(
    terms: LeafTerms,
    book: &[u8],
    codebook: &[u8],
    raised: &[u8],
    lambda: u64,
    level: Svq1Level,
    target: &[u8],
    predictor: &[u8],
    a: [PlannedBlock; 63],
    i: usize,
) -> PlannedBlock
    requires plan_ready { PlanReady terms book.now codebook.now raised.now (level_number level) target.now predictor.now × BlockReady (level_number level) i }
    requires done { Done (planning_in terms book.now codebook.now lambda (level_number level) target.now predictor.now) a (i + 1) }
    ensures { PlannedAt (planning_in terms book.now codebook.now lambda (level_number level) target.now predictor.now) i result }
{
    let l = plan_leaf(terms, book, codebook, raised, level, target, predictor, i);
    if 30 < i {
        return l;
    }
    let x = a[2 * i + 1];
    let y = a[2 * i + 2];
    decide(lambda, l, x, y)
}

// Every block of the plan, the last first.
fn plan_blocks(
    terms: LeafTerms,
    book: &[u8],
    codebook: &[u8],
    raised: &[u8],
    lambda: u64,
    level: Svq1Level,
    target: &[u8],
    predictor: &[u8],
) -> [PlannedBlock; 63]
    requires { PlanReady terms book.now codebook.now raised.now (level_number level) target.now predictor.now }
    ensures { Done (planning_in terms book.now codebook.now lambda (level_number level) target.now predictor.now) result 0 × All CleanChoice result }
{
    let mut a = [PlannedBlock {
        split: false,
        bits: 0,
        error: 0,
        code: LeafCode::Skip,
        stages: [0u8; 6],
    }; 63];
    for i in (0..63).rev() {
        if in_tree(level, i) {
            let b = plan_block(
                terms, book, codebook, raised, lambda, level, target, predictor, a, i,
            );
            a[i] = b;
        }
    }
    a
}

// A planned block as a block of the tree.
fn block_as(b: PlannedBlock) -> Block
    requires { CleanChoice b }
    ensures { (node_of result ≡ planned_node b) × CleanBlock result }
{
    let code = b.code;
    let stages = b.stages;
    if b.split {
        return Block {
            node: TreeNode::Split,
            stages: [0u8; 6],
        };
    }
    Block {
        node: TreeNode::Leaf(code),
        stages,
    }
}

// The tree that the planned blocks make from the root on: what is not reached is off.
fn grow_tree(a: [PlannedBlock; 63], root: usize) -> [Block; 63]
    requires { All CleanChoice a }
    ensures { (tree_of result ≡ grow root (λ i. planned_node (get_or a i blank)) block_count) × All CleanBlock result }
{
    let mut t = no_blocks();
    for i in 0..63 {
        if is_reached(t, root, i) {
            t[i] = block_as(a[i]);
        }
    }
    t
}

// The plan of a block of a level: its tree, its bits and its error.
pub fn plan(
    terms: LeafTerms,
    book: &[u8],
    codebook: &[u8],
    raised: &[u8],
    lambda: u64,
    level: Svq1Level,
    target: &[u8],
    predictor: &[u8],
) -> MbPlan
    requires { PlanReady terms book.now codebook.now raised.now (level_number level) target.now predictor.now }
    ensures { PlanFound (planning_in terms book.now codebook.now lambda (level_number level) target.now predictor.now) result }
{
    let a = plan_blocks(
        terms, book, codebook, raised, lambda, level, target, predictor,
    );
    let root = first_of(level);
    let top = a[root];
    let blocks = grow_tree(a, root);
    MbPlan {
        bits: top.bits,
        error: top.error,
        blocks,
    }
}

// The samples that the tree of a block of a level shows, at the front of `out`, over the block's predictor. `raised` is the raised codebook.
pub fn plan_reconstruction(
    blocks: [Block; 63],
    half: Svq1Half,
    predictor: &[u8],
    raised: &[u8],
    level: Svq1Level,
    out: &mut [u8],
)
    requires { FrontReady half (tree_of blocks) (length predictor.now) (length raised.now) (level_number level) (length out.old) }
    ensures { FrontShown half (tree_of blocks) predictor.now raised.now (level_number level) out.old out.new }
{
    let n = level.vector_length();
    let s = level.block_dims().width;
    let root = first_of(level);
    rebuild(
        blocks,
        half,
        predictor,
        raised,
        s,
        level,
        root,
        &mut out[0..n],
    );
}
