// A lent byte slice as a string of bits: numbers written into it and read; and a run of bytes put into a slice.
#![tactic(auto)]

pub mod inner;
pub mod refusal;
pub mod svq1_enc;
pub mod svq1_vlc;
