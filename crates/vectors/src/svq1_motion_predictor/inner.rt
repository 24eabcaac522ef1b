// A vector's difference from its predictor.
ghost use Rattle.std.specs.Prelude.{◌≡◌, ◌-ℤ◌};
ghost use Rattle.vectors.specs.Vectors.{difference_mv};
ghost use Rattle.vectors.specs.VectorsLaws.{InRange, Codable};

use super::super::svq1_motion_predictor::Svq1Mv;

// A component's difference from its prediction.
fn difference(v: i32, p: i32) -> i32
    requires { InRange (v -ℤ p) }
    ensures { result ≡ v -ℤ p }
{
    v - p
}

// A codable vector's difference from its predictor.
pub fn difference_of(p: Svq1Mv, v: Svq1Mv) -> Svq1Mv
    requires { Codable p v }
    ensures { result ≡ difference_mv p v }
{
    Svq1Mv::new(difference(v.x, p.x), difference(v.y, p.y))
}
