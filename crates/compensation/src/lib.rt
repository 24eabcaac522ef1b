// Half-sample compensation, and the absolute error of a block against a moved one.
#![tactic(auto)]

pub mod svq1_enc_inter;
pub mod svq1_mc;
