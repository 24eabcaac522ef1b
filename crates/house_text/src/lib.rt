// A book and a codebook as text: the book's file, then the codebook's numbers, one a line; and the house's, both worked out from their rules.
#![tactic(auto)]

ghost use Rattle.std.specs.Prelude.{◌≡◌, length};
ghost use Rattle.bits.specs.Basics.{signed_of};
ghost use Rattle.text.specs.WritingForms.{PutInRoom, TextWritten, text_refusal};
ghost use Rattle.book.specs.Book.{codebook_bytes};
ghost use Rattle.house_text.specs.HouseText.{number_line, number_lines, tables_printed, print_refusal, house_printed};

use bits::inner::signed;
use bits::refusal::Refusal;
use book::inner::{BOOK_BYTES, CODEBOOK_BYTES};
use book_check::check_data;
use book_file_writer::write_book_file;
use house::fill_house_codebook;
use house_rules::work_out_house_book;
use text::{put_signed, put_text, signed_count};

// Bytes of the house's text (`printed_bytes` in `theorems`): `write_house` does not refuse a slice of so many.
pub const HOUSE_TEXT_BYTES: usize = 91631;

// The number of a codebook's byte.
fn number_of(b: u8) -> i64
    ensures { result ≡ signed_of b }
{
    signed(b) as i64
}

// Its line.
fn put_number(out: &mut [u8], at: usize, b: u8) -> usize
    ensures { PutInRoom out.old at (number_line b) result out.new }
{
    let end = put_signed(out, at, number_of(b));
    put_text(out, end, b"\n")
}

// The lines of a codebook's bytes.
fn put_numbers(out: &mut [u8], at: usize, codebook: &[u8]) -> usize
    ensures { PutInRoom out.old at (number_lines codebook.now) result out.new }
{
    let mut next = at;
    for b in codebook {
        next = put_number(out, next, *b);
    }
    next
}

// Bytes of these lines.
fn numbers_length(codebook: &[u8]) -> usize
    requires { length codebook.now ≡ codebook_bytes }
    ensures { result ≡ length (number_lines codebook.now) }
{
    let mut n = 0;
    for b in codebook {
        n += signed_count(number_of(*b)) + 1;
    }
    n
}

// A book's file and behind it the codebook's numbers, written to the front of a lent slice. The answer is how far; what lies behind it stays. A refused call writes
// nothing: 5, 6 and 7 of the tables, then 20 where the slice is shorter than the text. The file's writer is lent all but the room that the numbers take.
pub fn write_tables(book: &[u8], codebook: &[u8], out: &mut [u8]) -> Result<usize, Refusal>
    ensures { TextWritten (print_refusal book.now codebook.now (length out.old)) (tables_printed book.now codebook.now) out.old result out.new }
{
    check_data(book, codebook)?;
    let numbers = numbers_length(codebook);
    if out.len() < numbers {
        return Err(Refusal::ResultLength);
    }
    let room = out.len() - numbers;
    let end = write_book_file(book, &mut out[..room])?;
    Ok(put_numbers(out, end, codebook))
}

// The house book's file and the house codebook's numbers, both tables worked out from their rules; 20 where the slice is shorter than the text.
pub fn write_house(out: &mut [u8]) -> Result<usize, Refusal>
    ensures { TextWritten (text_refusal house_printed (length out.old)) house_printed out.old result out.new }
{
    let mut book = [0u8; BOOK_BYTES];
    work_out_house_book(&mut book)?;
    let mut codebook = [0u8; CODEBOOK_BYTES];
    fill_house_codebook(&mut codebook)?;
    write_tables(&book, &codebook, out)
}
