// One macroblock chosen and written.
#![tactic(auto)]

pub mod svq1_enc_inter;
