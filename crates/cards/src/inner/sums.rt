// Counts and sums over samples.
ghost use Rattle.std.specs.Prelude.{eqb, ◌≡◌, ◌≤◌, length};
ghost use Rattle.std.specs.List.{count_by};
ghost use Rattle.codebook.specs.Mean.{residual};

use leaf_search::svq1_enc_leaf::inner::sum_of;

// How many samples are v.
pub fn count_of(s: &[u8], v: u8) -> usize
    ensures { result ≡ count_by (λ b. eqb b v) s.now }
{
    s.iter().filter(|b| **b == v).count()
}

// The sum of the residuals, target less predictor.
pub fn residual_sum(target: &[u8], predictor: &[u8]) -> i32
    requires { (length target.now ≤ 256) × (length predictor.now ≡ length target.now) }
    ensures { result ≡ residual target.now predictor.now }
{
    sum_of(target) as i32 - sum_of(predictor) as i32
}
