// What `svq1_enc_leaf.rs` of the original has in this crate.
pub mod inner;
