// A picture of three planes inside one allowance of bits: its rules, what writing one answers, and its refusals.
#![tactic(auto)]

pub mod inner;

use bits::refusal::Refusal;
use plane_enc::svq1_enc_inter::WriteEnd;

// What writing a picture answers: a refusal, if one is met; the macroblocks done in all planes, which with `NoRoom` is the index of the one that does not fit,
// counted through the planes; and for each plane what a plane call answers.
#[derive(Clone, Copy)]
pub struct PictureEnd {
    pub refused: Option<Refusal>,
    pub done: usize,
    pub first: WriteEnd,
    pub second: WriteEnd,
    pub third: WriteEnd,
}
