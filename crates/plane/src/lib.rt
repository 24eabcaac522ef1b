// The rules of a whole plane, and the refusals that its writer and its reader share.
#![tactic(auto)]

pub mod svq1_plane;
