// The reader of a plane.
#![tactic(auto)]

pub mod svq1_plane;
