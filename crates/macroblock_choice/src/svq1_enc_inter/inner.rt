// Functions that only the crates of this repository call. Most have a `requires`: the caller, proved too, meets it.
pub mod candidates;
pub mod choice;
pub mod plans;
