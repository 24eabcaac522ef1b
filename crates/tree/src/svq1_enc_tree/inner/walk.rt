// A tree as 63 block records: its bits written and read.
// Functions that only the crates of this repository call. Most have a `requires`: the caller, proved too, meets it.
ghost use Rattle.std.specs.Prelude.{◌≡◌, ◌<◌, ◌≤◌, length};
ghost use Rattle.bits.specs.BitNeeds.{Fits, Wrote};
ghost use Rattle.book.specs.Book.{book_bytes, stage_family, stage_table, tables_of};
ghost use Rattle.book.specs.Level.{level_number};
ghost use Rattle.leaf.specs.LeafBits.{leaf_bits};
ghost use Rattle.leaf.specs.LeafForms.{leaf_of};
ghost use Rattle.tree.specs.Blocks.{first};
ghost use Rattle.tree.specs.TreeBits.{is_split, reached, node_bits, tree_bits};
ghost use Rattle.tree.specs.NodeForms.{node_of, tree_of};
ghost use Rattle.tree.specs.WalkNeeds.{leaf_flag, LeafRoom, NodeRoom, TreeRoom, Reads, LeafHere, NodeHere, TreeHere};

use super::super::super::svq1_enc_tree::inner::level_of;
use super::super::super::svq1_enc_tree::{Block, TreeNode, no_blocks};
use bits::inner::{get_bits, put_bits};
use bits::refusal::Refusal;
use book::inner::{mean_table, stage_table};
use book::svq1_blocktree::Svq1Level;
use book::svq1_vlc::Svq1Half;
use leaf::svq1_enc_leaf::LeafCode;
use leaf::svq1_enc_leaf::inner::put_leaf;
use leaf::svq1_plane::inner::read_leaf;

// Whether a block is split.
pub fn is_split(b: Block) -> bool
    ensures { result ≡ is_split (node_of b) }
{
    matches!(b.node, TreeNode::Split)
}

// Whether block i is reached: it is the root, or its parent is split.
pub fn is_reached(blocks: [Block; 63], root: usize, i: usize) -> bool
    requires { i < 63 }
    ensures { result ≡ reached root (tree_of blocks) i }
{
    i == root || i != 0 && is_split(blocks[(i - 1) / 2])
}

// The flag before a leaf: none at L0.
fn put_flag(out: &mut [u8], at: usize, level: Svq1Level) -> usize
    requires { Fits (length out.old) at (length (leaf_flag (level_number level))) }
    ensures { Wrote out.old at (leaf_flag (level_number level)) result out.new }
{
    if level.number() == 0 {
        return at;
    }
    put_bits(out, at, 1, 0)
}

// A leaf of a level.
fn put_leaf_at(
    out: &mut [u8],
    at: usize,
    code: LeafCode,
    stages: [u8; 6],
    level: Svq1Level,
    half: Svq1Half,
    book: &[u8],
) -> usize
    requires { LeafRoom book.now half (level_number level) (leaf_of code stages) (length out.old) at }
    ensures { Wrote out.old at (leaf_bits (tables_of book.now half) (level_number level) (leaf_of code stages)) result out.new }
{
    let stage = stage_table(book, half, level);
    let means = mean_table(book, half);
    put_leaf(out, at, stage, means, half, code, stages)
}

// A block of a level: nothing where the tree does not reach it, the flag of a split, or a leaf behind its flag.
fn put_node(
    out: &mut [u8],
    at: usize,
    b: Block,
    level: Svq1Level,
    half: Svq1Half,
    book: &[u8],
) -> usize
    requires { NodeRoom book.now half (level_number level) (node_of b) (length out.old) at }
    ensures { Wrote out.old at (node_bits (tables_of book.now half) (level_number level) (node_of b)) result out.new }
{
    match b.node {
        TreeNode::Off => at,
        TreeNode::Split => put_bits(out, at, 1, 1),
        TreeNode::Leaf(code) => {
            let k = put_flag(out, at, level);
            put_leaf_at(out, k, code, b.stages, level, half, book)
        }
    }
}

// The bits of a tree, from bit `at` on: its blocks by number, which is level by level.
pub fn emit(blocks: [Block; 63], half: Svq1Half, book: &[u8], out: &mut [u8], at: usize) -> usize
    requires { TreeRoom book.now half (tree_of blocks) (length out.old) at }
    ensures { Wrote out.old at (tree_bits (tables_of book.now half) (tree_of blocks)) result out.new }
{
    let mut k = at;
    for i in 0..63 {
        k = put_node(out, k, blocks[i], level_of(i), half, book);
    }
    k
}

// A block that was read, and the bit behind it.
#[derive(Clone, Copy)]
pub struct ReadNode {
    pub next: usize,
    pub block: Block,
}

// A tree that was read, likewise.
#[derive(Clone, Copy)]
pub struct ReadTree {
    pub next: usize,
    pub blocks: [Block; 63],
}

// The first block of a level.
pub fn first_of(level: Svq1Level) -> usize
    ensures { result ≡ first (level_number level) }
{
    match level {
        Svq1Level::L0 => 31,
        Svq1Level::L1 => 15,
        Svq1Level::L2 => 7,
        Svq1Level::L3 => 3,
        Svq1Level::L4 => 1,
        Svq1Level::L5 => 0,
    }
}

// The leaf of a level that stands at bit `at`.
fn read_leaf_at(
    s: &[u8],
    at: usize,
    half: Svq1Half,
    book: &[u8],
    level: Svq1Level,
) -> Result<ReadNode, Refusal>
    requires { Reads book.now (level_number level) (length s.now) at }
    ensures { LeafHere (tables_of book.now half) (level_number level) s.now at result }
{
    let stage = stage_table(book, half, level);
    let means = mean_table(book, half);
    let leaf = read_leaf(s, at, stage, means, half, level.number())?;
    let stages = leaf.stages;
    Ok(ReadNode {
        next: leaf.next,
        block: Block {
            node: TreeNode::Leaf(leaf.code),
            stages,
        },
    })
}

// The block of a level that stands at bit `at`, where it is reached.
#[tactic(auto, using(crate::proofs::FlagLaws::leaf_behind))]
fn read_node(
    s: &[u8],
    at: usize,
    half: Svq1Half,
    book: &[u8],
    level: Svq1Level,
) -> Result<ReadNode, Refusal>
    requires { Reads book.now (level_number level) (length s.now) at }
    ensures { NodeHere (tables_of book.now half) (level_number level) s.now at result }
{
    if level.number() == 0 {
        return read_leaf_at(s, at, half, book, level);
    }
    if 8 * s.len() <= at {
        return Err(Refusal::BitsEnd);
    }
    if get_bits(s, at, 1) == 0 {
        return read_leaf_at(s, at + 1, half, book, level);
    }
    Ok(ReadNode {
        next: at + 1,
        block: Block {
            node: TreeNode::Split,
            stages: [0u8; 6],
        },
    })
}

// The tree of a block of this level that stands at bit `at`.
pub fn read(
    s: &[u8],
    at: usize,
    half: Svq1Half,
    book: &[u8],
    level: Svq1Level,
) -> Result<ReadTree, Refusal>
    requires { Reads book.now (level_number level) (length s.now) at }
    ensures { TreeHere (tables_of book.now half) (level_number level) s.now at result }
{
    let root = first_of(level);
    let mut blocks = no_blocks();
    let mut next = at;
    for i in 0..63 {
        if is_reached(blocks, root, i) {
            let node = read_node(s, next, half, book, level_of(i))?;
            blocks[i] = node.block;
            next = node.next;
        }
    }
    Ok(ReadTree { next, blocks })
}
