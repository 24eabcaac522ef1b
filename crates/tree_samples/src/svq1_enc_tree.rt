// What `svq1_enc_tree.rs` of the original has in this crate.
pub mod inner;
