// A leaf as it is coded, and the terms of its search.
pub mod inner;

use book::svq1_vlc::Svq1Half;

// The code of a leaf: skip, or a mean with a stage count; its stage indices lie beside it.
#[derive(Clone, Copy)]
pub enum LeafCode {
    Skip,
    Coded { mean: i16, count: u8 },
}

// The terms of a leaf's search: which half's tables and vectors, at most how many stages, whether it may be skipped, and the margin: a stage
// stays only where it lessens the error by more than this.
#[derive(Clone, Copy)]
pub struct LeafTerms {
    pub half: Svq1Half,
    pub cap: usize,
    pub skip: bool,
    pub margin: u32,
}
