// Bits written into a lent slice, highest bit first.
ghost use Rattle.std.specs.Prelude.{length};
ghost use Rattle.bits.specs.Bits.{msb};
ghost use Rattle.bits.specs.Calls.{bits_refusal, Put};

use super::inner;
use super::refusal::Refusal;

// The low `width` bits of `value`, from bit `at` on; the answer is the bit behind them.
pub fn push_bits(out: &mut [u8], at: usize, width: u32, value: u32) -> Result<usize, Refusal>
    ensures { Put (bits_refusal (length out.old) at width 22) out.old at (msb width value) result out.new }
{
    inner::check_bits(out.len(), at, width, Refusal::NoRoom)?;
    Ok(inner::put_bits(out, at, width, value))
}
