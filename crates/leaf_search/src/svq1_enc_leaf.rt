// What the leaf search chooses.
pub mod inner;

use leaf::svq1_enc_leaf::LeafCode;

// A leaf as the search chooses it, with its squared error.
#[derive(Clone, Copy)]
pub struct LeafChoice {
    pub code: LeafCode,
    pub stages: [u8; 6],
    pub error: u32,
}
