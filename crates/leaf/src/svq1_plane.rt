// What `svq1_plane.rs` of the original has in this crate.
pub mod inner;
