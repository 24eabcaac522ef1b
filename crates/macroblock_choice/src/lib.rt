// The ways to code a macroblock, planned and weighed, and the one that is chosen.
#![tactic(auto)]

pub mod svq1_enc_inter;
