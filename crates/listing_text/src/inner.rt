// Functions that only this crate calls. Some have a `requires`: the caller, proved too, meets it.
pub mod lines;
