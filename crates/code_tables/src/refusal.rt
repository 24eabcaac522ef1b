// Refusals 5, 6 and 7 of a table that is lent alone.
ghost use Rattle.std.specs.Prelude.{◌≡◌, true, ◌/◌, ◌≤◌, length};
ghost use Rattle.bits.specs.Refusals.{refused_by};
ghost use Rattle.code_tables.specs.Codes.{codes_of, good_table, prefix_free};
ghost use Rattle.code_tables.specs.Calls.{one_of, table_bytes, table_refusal};

use super::inner;
use bits::refusal::Refusal;

// Whether some kind of code table has so many bytes.
fn table_size(bytes: usize) -> bool
    ensures { result ≡ one_of table_bytes bytes }
{
    matches!(bytes, 12 | 24 | 192 | 768 | 1536)
}

// Whether a table of at most 512 entries is prefix-free, with room for the ranges of its codes.
fn prefix_free_in(table: &[u8], lows: &mut [u32], highs: &mut [u32]) -> bool
    requires { (good_table table.now ≡ true) × (length table.now / 3 ≤ 512) × (length lows.old ≡ 512) × (length highs.old ≡ 512) }
    ensures { result ≡ prefix_free (codes_of table.now) }
{
    let size = table.len() / 3;
    inner::prefix_free(table, &mut lows[..size], &mut highs[..size])
}

// The same, with room of its own.
fn prefix_free(table: &[u8]) -> bool
    requires { (good_table table.now ≡ true) × (length table.now / 3 ≤ 512) }
    ensures { result ≡ prefix_free (codes_of table.now) }
{
    let mut lows = [0u32; 512];
    let mut highs = [0u32; 512];
    prefix_free_in(table, &mut lows, &mut highs)
}

// Refusals 5, 6 and 7 of a table.
pub fn check_table(table: &[u8]) -> Result<(), Refusal>
    ensures { refused_by result ≡ table_refusal table.now }
{
    if !table_size(table.len()) {
        return Err(Refusal::TableLength);
    }
    if !inner::good_table(table) {
        return Err(Refusal::CodeWidth);
    }
    if !prefix_free(table) {
        return Err(Refusal::NotPrefixFree);
    }
    Ok(())
}
