// The plan of a block as an exported function.
ghost use Rattle.std.specs.Prelude.{◌≡◌, not, eqb, length};
ghost use Rattle.leaf.specs.LeafCall.{block_by};
ghost use Rattle.tree.specs.NodeForms.{node_of, tree_of};
ghost use Rattle.plan.specs.PlanAnswer.{plan_answer};
ghost use Rattle.call_entries.specs.Node.{bare_node, node_part};
ghost use Rattle.call_entries.specs.Plan.{node_parts, made_part, no_plan, plan_part};

use super::inner::{NodePart, leaf_node};
use plan_call::svq1_enc_tree::plan_macroblock;
use tree::svq1_enc_tree::{Block, TreeNode};

// What a plan answers: a refusal's number with zeros, or 0, the plan's bits, its error, the blocks of its tree by number, and the samples
// that it shows with zeros behind them.
#[repr(C)]
#[derive(Drop)]
pub struct PlanPart {
    pub bits: u32,
    pub error: u32,
    pub nodes: [NodePart; 63],
    pub refused: u8,
    pub samples: [u8; 256],
}

fn refused_part(refused: u8) -> PlanPart
    ensures { result ≡ no_plan refused }
{
    PlanPart {
        bits: 0,
        error: 0,
        nodes: [NodePart {
            mean: 0,
            kind: 0,
            count: 0,
            stages: [0u8; 6],
        }; 63],
        refused,
        samples: [0u8; 256],
    }
}

// A block that is no leaf.
fn bare_node(kind: u8) -> NodePart
    ensures { result ≡ bare_node kind }
{
    NodePart {
        mean: 0,
        kind,
        count: 0,
        stages: [0u8; 6],
    }
}

fn node_part(b: Block) -> NodePart
    ensures { result ≡ node_part (node_of b) }
{
    let n = b.node;
    let stages = b.stages;
    match n {
        TreeNode::Off => bare_node(0),
        TreeNode::Split => bare_node(1),
        TreeNode::Leaf(code) => leaf_node(code, stages),
    }
}

// The blocks of a tree.
fn node_parts(blocks: [Block; 63]) -> [NodePart; 63]
    ensures { result ≡ node_parts (tree_of blocks) }
{
    let mut nodes = [NodePart {
        mean: 0,
        kind: 0,
        count: 0,
        stages: [0u8; 6],
    }; 63];
    for i in 0..63 {
        nodes[i] = node_part(blocks[i]);
    }
    nodes
}

// A plan that was made, field by field. That there are 256 samples is known here, where they come as an array.
fn made_part(blocks: [Block; 63], bits: u32, error: u32, samples: [u8; 256]) -> PlanPart
    ensures { (result ≡ made_part (tree_of blocks) bits error samples) × (length samples ≡ 256) }
{
    let nodes = node_parts(blocks);
    PlanPart {
        bits,
        error,
        nodes,
        refused: 0,
        samples,
    }
}

// `tree`'s plan by plain numbers: skip is allowed unless `skip` is 0.
#[unsafe(no_mangle)]
pub extern "C" fn parts_plan_macroblock(
    book: &[u8],
    codebook: &[u8],
    level: u8,
    half: u8,
    target: &[u8],
    predictor: &[u8],
    cap: u8,
    skip: u8,
    lambda: u64,
    margin: u32,
) -> PlanPart
    ensures { result ≡ plan_part (plan_answer (block_by book.now codebook.now level half target.now predictor.now cap (not (eqb skip 0)) margin) lambda) }
{
    let made = plan_macroblock(
        book,
        codebook,
        level,
        half,
        target,
        predictor,
        cap,
        skip != 0,
        lambda,
        margin,
    );
    match made {
        Ok(p) => made_part(p.blocks, p.bits, p.error, p.samples),
        Err(refusal) => refused_part(refusal.number()),
    }
}
