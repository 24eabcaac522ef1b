// Book files and the built-in tables.
ghost use Rattle.std.specs.Prelude.{length};
ghost use Rattle.house.specs.Fill.{BookFilled, CodebookFilled};
ghost use Rattle.book_file.specs.BookFile.{book_file, write_file_refusal};
ghost use Rattle.book_file.specs.BookFileForms.{BookFileRead};
ghost use Rattle.cabunlis.specs.Host.{HostTextWritten};

use super::answers::{HostBytes, bytes_told, refusal_told};
use book_file::read_book_file;
use book_file_writer::write_book_file;
use house::{fill_house_book, fill_house_codebook};

// Reads a book file into a lent book; 0, or the refusal with the book as it was.
#[unsafe(no_mangle)]
pub extern "C" fn cabunlis2_read_book_file(file: &[u8], book: &mut [u8]) -> u32
    ensures { BookFileRead file.now book.old result book.new }
{
    refusal_told(read_book_file(file, book))
}

// Writes a lent book's file to the front of a lent slice; what lies behind it stays.
#[unsafe(no_mangle)]
pub extern "C" fn cabunlis2_write_book_file(book: &[u8], out: &mut [u8]) -> HostBytes
    ensures { HostTextWritten (write_file_refusal book.now (length out.old)) (book_file book.now) out.old result out.new }
{
    bytes_told(write_book_file(book, out))
}

// Fills a lent book with the built-in one; 0, or 5 where it has another size.
#[unsafe(no_mangle)]
pub extern "C" fn cabunlis2_house_book(book: &mut [u8]) -> u32
    ensures { BookFilled book.old result book.new }
{
    refusal_told(fill_house_book(book))
}

// The same for the codebook.
#[unsafe(no_mangle)]
pub extern "C" fn cabunlis2_house_codebook(codebook: &mut [u8]) -> u32
    ensures { CodebookFilled codebook.old result codebook.new }
{
    refusal_told(fill_house_codebook(codebook))
}
