// Codes read from a lent slice.
ghost use Rattle.std.specs.Prelude.{◌≡◌};
ghost use Rattle.bits.specs.Refusals.{answer_of};
ghost use Rattle.code_tables.specs.Calls.{code_at};

use super::inner;
use super::refusal::check_table;
use bits::inner::check_start;
use bits::refusal::Refusal;

// The position of the entry whose code was read, and the bit behind the code.
#[derive(Clone, Copy)]
pub struct CodeFound {
    pub position: usize,
    pub next: usize,
}

// The first code of the table that stands at bit `at`.
pub fn read_code(s: &[u8], at: usize, table: &[u8]) -> Result<CodeFound, Refusal>
    ensures { answer_of result ≡ code_at s.now at table.now }
{
    check_table(table)?;
    check_start(s.len(), at)?;
    inner::read_code(s, at, table)
}
