// Functions that only this crate calls. Some have a `requires`: the caller, proved too, meets it.
pub mod leaf_cards;
pub mod levels;
pub mod line;
pub mod margin_cards;
pub mod mode;
pub mod plane_text;
pub mod sample_cards;
pub mod signed_texts;
pub mod small_planes;
pub mod sums;
pub mod vector_cards;
pub mod wide_planes;
