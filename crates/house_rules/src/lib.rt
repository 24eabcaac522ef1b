// The house book worked out from its rules: the position rule, the logarithm, and the entries one behind the other. The constant of `house` is not looked at.
// The house codebook has no constant: `fill_house_codebook` of `house` works it out.
#![tactic(auto)]

ghost use Rattle.std.specs.Prelude.{◌≡◌, ◌≤◌, ◌<◌};
ghost use Rattle.std.proofs.Math.IntN.{sub_ℕ};
ghost use Rattle.bits.specs.Refusals.{refused_by};
ghost use Rattle.book.specs.Book.{book_entries};
ghost use Rattle.house.specs.Fill.{BookFilled};
ghost use Rattle.house.specs.House.{signed_rank, rank, house_entry};

use bits::inner::put_row;
use bits::refusal::Refusal;
use book::inner::{BOOK_BYTES, BOOK_ENTRIES};

// k of the signed number d at a position of its table, where 0 stands at position `zero`: 2d - 1 if d is above 0, else -2d.
fn signed_rank(position: usize, zero: usize) -> usize
    requires { (position ≤ 511) × (zero ≤ 256) }
    ensures { (result ≡ signed_rank (sub_ℕ position zero)) × (result ≤ 1022) }
{
    if zero < position {
        return 2 * (position - zero) - 1;
    }
    2 * (zero - position)
}

// k of an entry of the book, by its table: mode, vector, intramean, intermean, stages.
fn house_rank(entry: usize) -> usize
    requires { entry < book_entries }
    ensures { (result ≡ rank entry) × (result ≤ 1022) }
{
    if entry < 4 {
        return (entry + 1) % 4;
    }
    if entry < 68 {
        return signed_rank(entry - 4, 32);
    }
    if entry < 324 {
        return entry - 68;
    }
    if entry < 836 {
        return signed_rank(entry - 324, 256);
    }
    (entry - 836) % 8
}

// An entry: the code's high byte, its low byte, its length.
fn house_entry(entry: usize) -> [u8; 3]
    requires { entry < book_entries }
    ensures { result ≡ house_entry entry }
{
    let rank = house_rank(entry);
    let value = rank + 1;
    let long = 2 * value.ilog2() + 1;
    let high = (value / 256) as u8;
    let low = (value % 256) as u8;
    [high, low, long as u8]
}

// The house book worked out into a slice of 2,796 bytes; one of another length is refused. What it leaves is what `fill_house_book` leaves.
pub fn work_out_house_book(out: &mut [u8]) -> Result<(), Refusal>
    ensures { BookFilled out.old (refused_by result) out.new }
{
    if out.len() != BOOK_BYTES {
        return Err(Refusal::TableLength);
    }
    for e in 0..BOOK_ENTRIES {
        put_row(out, 3 * e, &house_entry(e));
    }
    Ok(())
}
