// Numbers read from a lent slice.
ghost use Rattle.std.specs.Prelude.{◌≡◌};
ghost use Rattle.bits.specs.Refusals.{answer_of};
ghost use Rattle.bits.specs.Calls.{bits_at};

use super::inner;
use super::refusal::Refusal;

// A number that was read, and the bit behind it.
#[derive(Clone, Copy)]
pub struct BitsRead {
    pub value: u32,
    pub next: usize,
}

// The `width` bits from bit `at` on, as a number.
pub fn read_bits(s: &[u8], at: usize, width: u32) -> Result<BitsRead, Refusal>
    ensures { answer_of result ≡ bits_at s.now at width }
{
    inner::check_bits(s.len(), at, width, Refusal::BitsEnd)?;
    Ok(BitsRead {
        value: inner::get_bits(s, at, width),
        next: at + width as usize,
    })
}
