// Codes written into a lent slice.
ghost use Rattle.std.specs.Prelude.{◌≡◌, length};
ghost use Rattle.bits.specs.Refusals.{refused_by};
ghost use Rattle.bits.specs.Calls.{Put};
ghost use Rattle.code_tables.specs.Codes.{code, codes_of};
ghost use Rattle.code_tables.specs.Calls.{code_refusal};

use super::inner;
use super::refusal::check_table;
use bits::inner::check_room;
use bits::refusal::Refusal;

// Refusals of a code that is to be written into `bytes` bytes.
fn check_code(bytes: usize, at: usize, table: &[u8], position: usize) -> Result<(), Refusal>
    ensures { refused_by result ≡ code_refusal bytes at table.now position }
{
    if table.len() / 3 <= position {
        return Err(Refusal::TableLength);
    }
    check_table(table)?;
    check_room(
        bytes,
        at,
        inner::entry_len(table, position),
        Refusal::NoRoom,
    )
}

// The code of the table's entry at `position`, from bit `at` on; the answer is the bit behind it.
pub fn push_code(out: &mut [u8], at: usize, table: &[u8], position: usize) -> Result<usize, Refusal>
    ensures { Put (code_refusal (length out.old) at table.now position) out.old at (code (codes_of table.now) position) result out.new }
{
    check_code(out.len(), at, table, position)?;
    Ok(inner::put_code(out, at, table, position))
}
