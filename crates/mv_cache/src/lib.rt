// The block vectors in memory: a macroblock's neighbours, its predictors, and its vectors stored.
#![tactic(auto)]

pub mod svq1_mv_cache;
