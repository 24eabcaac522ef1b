// Costs, which saturate.
ghost use Rattle.std.specs.Prelude.{◌≡◌, ◌+◌, ◌*◌};
ghost use Rattle.tree.specs.Plan.{saturated};
ghost use Rattle.costs.specs.Cost.{cost_of};

// The sum of two costs; what 64 bits cannot hold counts as their largest number.
pub fn saturating_add(a: u64, b: u64) -> u64
    ensures { result ≡ saturated (a + b) }
{
    a.saturating_add(b)
}

// The product of a cost and a count, likewise.
pub fn saturating_mul(a: u64, b: u64) -> u64
    ensures { result ≡ saturated (a * b) }
{
    a.saturating_mul(b)
}

// The cost of `bits` bits and an error.
pub fn cost(lambda: u64, bits: u32, error: u32) -> u64
    ensures { result ≡ cost_of lambda bits error }
{
    saturating_add(error as u64, saturating_mul(lambda, bits as u64))
}
