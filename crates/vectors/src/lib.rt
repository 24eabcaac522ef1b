// Motion vectors and their predictor.
#![tactic(auto)]

pub mod svq1_motion_predictor;
