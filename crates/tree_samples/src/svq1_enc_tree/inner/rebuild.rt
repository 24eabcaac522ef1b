// The samples that a tree of 63 block records shows.
// Functions that only the crates of this repository call. Most have a `requires`: the caller, proved too, meets it.
ghost use Rattle.std.specs.Prelude.{◌≡◌, ◌<◌, length};
ghost use Rattle.book.specs.Level.{level_number};
ghost use Rattle.leaf.specs.LeafForms.{leaf_of};
ghost use Rattle.tree.specs.Blocks.{paint_at};
ghost use Rattle.tree.specs.NodeForms.{node_of, tree_of};
ghost use Rattle.tree_samples.specs.RebuildNeeds.{Cells, Drawing, DrawingNode, Rebuilding, leaf_as, node_at, rebuilt_by};

use super::super::super::svq1_enc_tree::inner::{gather_block, paint_block, place_of};
use book::svq1_blocktree::Svq1Level;
use book::svq1_vlc::Svq1Half;
use codebook::svq1_codebook::inner::page_start;
use leaf::svq1_enc_leaf::LeafCode;
use leaf_samples::svq1_enc_leaf::inner::show_leaf;
use tree::svq1_enc_tree::inner::walk::is_split;
use tree::svq1_enc_tree::{Block, TreeNode};

// The leaf at block i, of level d, into the plane `out` of stride `s`, over the predictor's plane. `under`, `sums` and `over` are scratch of the
// block's size: its predictor, its sums and its samples.
fn paint_leaf(
    code: LeafCode,
    stages: [u8; 6],
    half: Svq1Half,
    predictor: &[u8],
    raised: &[u8],
    s: usize,
    level: Svq1Level,
    i: usize,
    out: &mut [u8],
    under: &mut [u8],
    sums: &mut [u16],
    over: &mut [u8],
)
    requires drawing { Drawing half (leaf_of code stages) (length predictor.now) (length raised.now) s (level_number level) i (length out.old) }
    requires cells { Cells (level_number level) (length under.old) (length sums.old) (length over.old) }
    ensures { out.new ≡ paint_at s (level_number level) i (leaf_as raised.now half s predictor.now i (leaf_of code stages)) out.old }
{
    let dims = level.block_dims();
    let w = dims.width;
    let h = dims.height;
    let at = place_of(s, i);
    let page = page_start(half, level.number());
    gather_block(predictor, s, at, w, h, under);
    show_leaf(half, under, sums, over, raised, page, code, stages);
    paint_block(out, s, at, w, h, over);
}

// The same with scratch of any size that is large enough.
fn paint_cut(
    code: LeafCode,
    stages: [u8; 6],
    half: Svq1Half,
    predictor: &[u8],
    raised: &[u8],
    s: usize,
    level: Svq1Level,
    i: usize,
    out: &mut [u8],
    under: &mut [u8],
    sums: &mut [u16],
    over: &mut [u8],
)
    requires drawing { Drawing half (leaf_of code stages) (length predictor.now) (length raised.now) s (level_number level) i (length out.old) }
    requires under_len { (length under.old ≡ 256) × (length sums.old ≡ 256) × (length over.old ≡ 256) }
    ensures { out.new ≡ paint_at s (level_number level) i (leaf_as raised.now half s predictor.now i (leaf_of code stages)) out.old }
{
    let n = level.vector_length();
    paint_leaf(
        code,
        stages,
        half,
        predictor,
        raised,
        s,
        level,
        i,
        out,
        &mut under[0..n],
        &mut sums[0..n],
        &mut over[0..n],
    );
}

// The same with scratch of its own.
fn paint_code(
    code: LeafCode,
    stages: [u8; 6],
    half: Svq1Half,
    predictor: &[u8],
    raised: &[u8],
    s: usize,
    level: Svq1Level,
    i: usize,
    out: &mut [u8],
)
    requires { Drawing half (leaf_of code stages) (length predictor.now) (length raised.now) s (level_number level) i (length out.old) }
    ensures { out.new ≡ paint_at s (level_number level) i (leaf_as raised.now half s predictor.now i (leaf_of code stages)) out.old }
{
    let mut under = [0u8; 256];
    let mut sums = [0u16; 256];
    let mut over = [0u8; 256];
    paint_cut(
        code, stages, half, predictor, raised, s, level, i, out, &mut under, &mut sums, &mut over,
    );
}

// What block i shows where it is not split: a leaf, or nothing.
fn paint_node(
    b: Block,
    half: Svq1Half,
    predictor: &[u8],
    raised: &[u8],
    s: usize,
    level: Svq1Level,
    i: usize,
    out: &mut [u8],
)
    requires { DrawingNode half (node_of b) (length predictor.now) (length raised.now) s (level_number level) i (length out.old) }
    ensures { out.new ≡ paint_at s (level_number level) i (node_at raised.now half s predictor.now i (node_of b)) out.old }
{
    let n = b.node;
    let stages = b.stages;
    match n {
        TreeNode::Off => {}
        TreeNode::Split => {}
        TreeNode::Leaf(code) => paint_code(code, stages, half, predictor, raised, s, level, i, out),
    }
}

// Block i, of this level, of a tree: its two parts where it is split, or what it shows, into the plane `out` of stride `s` over the predictor's plane.
// The recursion of `plan_reconstruction`. `raised` is the raised codebook.
pub fn rebuild(
    blocks: [Block; 63],
    half: Svq1Half,
    predictor: &[u8],
    raised: &[u8],
    s: usize,
    level: Svq1Level,
    i: usize,
    out: &mut [u8],
)
    requires { Rebuilding half (tree_of blocks) (length predictor.now) (length raised.now) s (level_number level) i (length out.old) }
    ensures { out.new ≡ rebuilt_by raised.now half s predictor.now (tree_of blocks) (level_number level) i out.old }
{
    let b = blocks[i];
    if let Some(part) = level.subdivide() {
        if is_split(b) {
            rebuild(blocks, half, predictor, raised, s, part, 2 * i + 1, out);
            rebuild(blocks, half, predictor, raised, s, part, 2 * i + 2, out);
            return;
        }
    }
    paint_node(b, half, predictor, raised, s, level, i, out);
}
