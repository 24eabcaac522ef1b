// Leaves of the block tree: a leaf's bits, written and read.
#![tactic(auto)]

pub mod svq1_enc_leaf;
pub mod svq1_plane;
