// The leaf search.
#![tactic(auto)]

pub mod svq1_enc_leaf;
