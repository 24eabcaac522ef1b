// The tree's records.
pub mod inner;

ghost use Rattle.std.specs.Prelude.{◌≡◌, replicate};
ghost use Rattle.tree.specs.Blocks.{block_count};
ghost use Rattle.tree.specs.NodeForms.{off_block};

use leaf::svq1_enc_leaf::LeafCode;

// A block of the tree: one that the tree does not reach, a split, or a leaf.
#[derive(Clone, Copy)]
pub enum TreeNode {
    Off,
    Split,
    Leaf(LeafCode),
}

// A block's record: its node, and a leaf's stage indices beside it.
#[derive(Clone, Copy)]
pub struct Block {
    pub node: TreeNode,
    pub stages: [u8; 6],
}

// No tree: every block is off.
pub fn no_blocks() -> [Block; 63]
    ensures { result ≡ replicate block_count off_block }
{
    [Block {
        node: TreeNode::Off,
        stages: [0u8; 6],
    }; 63]
}
