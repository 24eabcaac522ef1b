// One macroblock: what it is, and its samples and vectors laid into the result slices.
#![tactic(auto)]

pub mod svq1_enc_inter;
