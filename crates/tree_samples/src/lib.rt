// The samples that a block tree shows.
#![tactic(auto)]

pub mod svq1_enc_tree;
