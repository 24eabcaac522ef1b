// The book of code tables: where its tables stand, the levels of blocks, and the halves.
#![tactic(auto)]

pub mod inner;
pub mod svq1_blocktree;
pub mod svq1_vlc;
