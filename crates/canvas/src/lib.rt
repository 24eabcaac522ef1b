// Sizes of planes, and the canvases that hold them.
#![tactic(auto)]

pub mod svq1_plane;
