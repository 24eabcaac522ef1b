// The bits of a macroblock's mode and vectors, counted and written.
#![tactic(auto)]

pub mod svq1_enc_inter;
