// What a macroblock is to show, and the motions that the searches find for it.
#![tactic(auto)]

pub mod svq1_enc;
pub mod svq1_enc_inter;
