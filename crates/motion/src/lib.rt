// The motion search.
#![tactic(auto)]

pub mod svq1_enc_inter;
