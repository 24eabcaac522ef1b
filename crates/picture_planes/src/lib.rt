// Three planes of a picture, one behind the other in one output.
#![tactic(auto)]

pub mod inner;
