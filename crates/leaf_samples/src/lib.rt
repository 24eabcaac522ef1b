// A leaf's samples.
#![tactic(auto)]

pub mod svq1_enc_leaf;
