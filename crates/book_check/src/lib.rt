// What refuses a lent book.
#![tactic(auto)]

ghost use Rattle.std.specs.Prelude.{◌≡◌, true, length};
ghost use Rattle.bits.specs.Refusals.{refused_by};
ghost use Rattle.code_tables.specs.Codes.{good_table};
ghost use Rattle.book.specs.Book.{book_bytes, code_table_sizes, each_prefix_free, book_refusal, data_refusal};

use bits::refusal::Refusal;
use book::inner::{BOOK_BYTES, CODEBOOK_BYTES};
use code_tables::inner;

// Entries of each of the sixteen code tables, in the order in which a book holds them.
const CODE_TABLE_SIZES: [usize; 16] = [4, 64, 256, 512, 8, 8, 8, 8, 8, 8, 8, 8, 8, 8, 8, 8];

// Whether each of the sixteen tables is prefix-free, with room for the ranges of a table's codes.
fn each_prefix_free_in(book: &[u8], lows: &mut [u32], highs: &mut [u32]) -> bool
    requires { (length book.now ≡ book_bytes) × (good_table book.now ≡ true) × (length lows.old ≡ 512) × (length highs.old ≡ 512) }
    ensures { result ≡ each_prefix_free code_table_sizes book.now }
{
    let mut before = 0;
    for size in CODE_TABLE_SIZES {
        let from = 3 * before;
        let to = from + 3 * size;
        if !inner::prefix_free(&book[from..to], &mut lows[..size], &mut highs[..size]) {
            return false;
        }
        before += size;
    }
    true
}

// The same, with room of its own.
fn each_prefix_free(book: &[u8]) -> bool
    requires { (length book.now ≡ book_bytes) × (good_table book.now ≡ true) }
    ensures { result ≡ each_prefix_free code_table_sizes book.now }
{
    let mut lows = [0u32; 512];
    let mut highs = [0u32; 512];
    each_prefix_free_in(book, &mut lows, &mut highs)
}

// Refusals 5, 6 and 7 of a lent book.
pub fn check_book(book: &[u8]) -> Result<(), Refusal>
    ensures { refused_by result ≡ book_refusal book.now }
{
    if book.len() != BOOK_BYTES {
        return Err(Refusal::TableLength);
    }
    if !inner::good_table(book) {
        return Err(Refusal::CodeWidth);
    }
    if !each_prefix_free(book) {
        return Err(Refusal::NotPrefixFree);
    }
    Ok(())
}

// The same of a lent book and codebook.
#[tactic(auto, using(std::proofs::lemmas::Bool::Decides::nat_tests), unfolding(book::specs::Book::data_refusal))]
pub fn check_data(book: &[u8], codebook: &[u8]) -> Result<(), Refusal>
    ensures { refused_by result ≡ data_refusal book.now codebook.now }
{
    if codebook.len() != CODEBOOK_BYTES {
        return Err(Refusal::TableLength);
    }
    check_book(book)
}
