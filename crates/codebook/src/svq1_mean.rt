// A sum clamped to a sample.
ghost use Rattle.std.specs.Prelude.{◌≡◌};
ghost use Rattle.codebook.specs.Mean.{saturate};

// The sample that a sum shows.
#[tactic(auto, using(crate::proofs::Saturated::saturated))]
pub fn saturate_u8(value: i16) -> u8
    ensures { result ≡ saturate value }
{
    if value < 0 {
        return 0;
    }
    if 255 < value {
        return 255;
    }
    value as u8
}
