// The plane writer.
#![tactic(auto)]

pub mod svq1_enc_inter;
