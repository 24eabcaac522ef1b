// The block tree: its 63 blocks, its bits and its reading.
#![tactic(auto)]

pub mod svq1_enc_tree;
