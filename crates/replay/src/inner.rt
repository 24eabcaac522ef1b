// Functions that only this crate calls. Some have a `requires`: the caller, proved too, meets it.
pub mod compare;
pub mod file;
pub mod run;
pub mod tally;
