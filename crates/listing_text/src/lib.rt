// The listing program's work: the text that it prints.
#![tactic(auto)]

mod inner;
pub mod listing;
