// What `svq1_enc_inter.rs` of the original has in this crate.
pub mod inner;
