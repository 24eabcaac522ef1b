// Functions that only the crates of this repository call. Most have a `requires`: the caller, proved too, meets it. The functions for
// everybody else are in the modules that keep the names of the original's files.
pub mod limit;
pub mod writing;
