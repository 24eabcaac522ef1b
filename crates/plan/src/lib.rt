// The plan of a block: the cheapest tree over the leaf choices of its blocks.
#![tactic(auto)]

pub mod svq1_enc_tree;
