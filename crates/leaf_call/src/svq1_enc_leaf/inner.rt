// Functions that only the crates of this repository call. Each has a `requires`: the caller, proved too, meets it.
ghost use Rattle.std.specs.Prelude.{◌≡◌, ◌<◌};
ghost use Rattle.leaf.specs.LeafCall.{half_at, terms_by};

use book::svq1_vlc::Svq1Half;
use leaf::svq1_enc_leaf::LeafTerms;

// The half of a number that 8 passes.
fn half_of(half: u8) -> Svq1Half
    requires { half < 2 }
    ensures { result ≡ half_at half }
{
    match half {
        0 => Svq1Half::Intra,
        _ => Svq1Half::Inter,
    }
}

// The terms by a call's half, cap and flag, which 8 passes, and its margin.
pub fn terms_of(half: u8, cap: u8, skip: bool, margin: u32) -> LeafTerms
    requires { half < 2 }
    ensures { result ≡ terms_by half cap skip margin }
{
    LeafTerms {
        half: half_of(half),
        cap: cap as usize,
        skip,
        margin,
    }
}
