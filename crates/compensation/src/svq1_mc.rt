// What `svq1_mc.rs` of the original has in this crate.
pub mod inner;
