// What `svq1_enc.rs` of the original has in this crate.
pub mod inner;
