// Book files written: the one file of a book, its tables and positions in their order.
#![tactic(auto)]

ghost use Rattle.std.specs.Prelude.{◌≡◌, [], ◌∷◌, ◌+◌, ◌≤◌, length};
ghost use Rattle.text.specs.Text.{decimal, line_of};
ghost use Rattle.text.specs.WritingForms.{PutInRoom, TextWritten};
ghost use Rattle.book.specs.Book.{book_entries, book_bytes};
ghost use Rattle.book_file.specs.BookFile.{table_lines, book_file, write_file_refusal};

use bits::refusal::Refusal;
use book::inner::BOOK_ENTRIES;
use book_check::check_book;
use code_tables::inner::{entry_len, entry_val};
use text::{digit_count, put_field, put_text};

// What a file holds beside lengths and codes: names, positions, commas and line feeds, the same in every book's.
const FRAME_BYTES: usize = 14378;

// A line: table, position, length, code.
fn put_line(out: &mut [u8], at: usize, name: &[u8], position: u64, long: u64, value: u64) -> usize
    ensures { PutInRoom out.old at (line_of (name.now ∷ decimal position ∷ decimal long ∷ decimal value ∷ [])) result out.new }
{
    let a = put_text(out, at, name);
    let b = put_text(out, a, b",");
    let c = put_field(out, b, position, b',');
    let d = put_field(out, c, long, b',');
    put_field(out, d, value, b'\n')
}

// The lines of the table that begins at entry `from` and has `size` entries.
fn put_table(out: &mut [u8], at: usize, book: &[u8], name: &[u8], from: usize, size: usize) -> usize
    requires { (length book.now ≡ book_bytes) × (from + size ≤ book_entries) }
    ensures { PutInRoom out.old at (table_lines book.now (record { name = name.now; from = from; size = size }) size) result out.new }
{
    let mut next = at;
    for p in 0..size {
        let long = entry_len(book, from + p) as u64;
        let value = entry_val(book, from + p);
        next = put_line(out, next, name, p as u64, long, value);
    }
    next
}

// Every table of a book.
fn put_tables(out: &mut [u8], book: &[u8]) -> usize
    requires { length book.now ≡ book_bytes }
    ensures { PutInRoom out.old 0 (book_file book.now) result out.new }
{
    let a = put_table(out, 0, book, b"mode", 0, 4);
    let b = put_table(out, a, book, b"vector", 4, 64);
    let c = put_table(out, b, book, b"intramean", 68, 256);
    let d = put_table(out, c, book, b"intermean", 324, 512);
    let e = put_table(out, d, book, b"intrastage", 836, 48);
    put_table(out, e, book, b"interstage", 884, 48)
}

// Bytes of a book's file.
fn file_length(book: &[u8]) -> usize
    requires { length book.now ≡ book_bytes }
    ensures { result ≡ length (book_file book.now) }
{
    let mut n = FRAME_BYTES;
    for e in 0..BOOK_ENTRIES {
        n += digit_count(entry_len(book, e) as u64);
        n += digit_count(entry_val(book, e));
    }
    n
}

// A book's file written to the front of a lent slice. The answer is how far; what lies behind it stays. A refused call writes nothing.
pub fn write_book_file(book: &[u8], out: &mut [u8]) -> Result<usize, Refusal>
    ensures { TextWritten (write_file_refusal book.now (length out.old)) (book_file book.now) out.old result out.new }
{
    check_book(book)?;
    if out.len() < file_length(book) {
        return Err(Refusal::ResultLength);
    }
    Ok(put_tables(out, book))
}
