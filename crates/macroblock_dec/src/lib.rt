// One macroblock read.
#![tactic(auto)]

pub mod svq1_plane;
