// The codebook: where its pages and vectors stand, its copy in raster order, and the sample that a sum shows.
#![tactic(auto)]

pub mod svq1_codebook;
pub mod svq1_mean;
