// Tables of codes: which are good, and a code written and read.
#![tactic(auto)]

pub mod inner;
mod refusal;
pub mod svq1_enc;
pub mod svq1_vlc;
