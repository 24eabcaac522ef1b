// A plan, and what is kept of each block while it is made.
pub mod inner;

use leaf::svq1_enc_leaf::LeafCode;
use tree::svq1_enc_tree::Block;

// A plan: its bits, its error and its tree.
#[derive(Clone, Copy)]
pub struct MbPlan {
    pub bits: u32,
    pub error: u32,
    pub blocks: [Block; 63],
}

// What is planned for a block: whether it is split, and its bits and its error as that. Its leaf choice stands there either way.
#[derive(Clone, Copy)]
pub struct PlannedBlock {
    pub split: bool,
    pub bits: u32,
    pub error: u32,
    pub code: LeafCode,
    pub stages: [u8; 6],
}
