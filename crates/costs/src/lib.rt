// What bits and errors cost.
#![tactic(auto)]

pub mod svq1_enc_tree;
