// The plan as a call, with its refusals.
#![tactic(auto)]

pub mod svq1_enc_tree;
