// Book files read: the text form of a book of code tables, its lines in one order.
#![tactic(auto)]

ghost use Rattle.std.specs.Prelude.{◌≡◌, ◌+◌, ◌*◌, ◌≤◌, Some, None, ltb, length};
ghost use Rattle.bits.specs.Basics.{pick};
ghost use Rattle.bits.specs.Refusals.{refused_by};
ghost use Rattle.text.specs.Text.{fields_of};
ghost use Rattle.book.specs.Book.{book_entries, book_bytes};
ghost use Rattle.book_file.specs.BookFile.{file_tables, entry_named, line_read, file_lines};
ghost use Rattle.book_file.specs.BookFileForms.{Unmet, begun, FileHeld, BookFileRead, line_told, held_told, file_code_at, with_entry, scanned, all_met};

use bits::refusal::Refusal;
use book::inner::{BOOK_BYTES, BOOK_ENTRIES};
use book_check::check_book;
use text::{find, put_text, read_number, same};

// What a line says: an entry of the book, its code's length and value.
#[derive(Clone, Copy)]
struct FileEntry {
    entry: usize,
    long: u64,
    value: u64,
}

// Position p of the table that starts at entry `from` and has `size` entries.
#[tactic(auto, using(std::proofs::lemmas::Bool::Decides::nat_tests))]
fn entry_in(p: u64, from: usize, size: u64) -> Option<usize>
    requires { from + size ≤ book_entries }
    ensures { result ≡ pick (ltb p size) (Some (from + p)) None }
{
    if p < size {
        Some(from + p as usize)
    } else {
        None
    }
}

// The entry that a table's name and a position mean.
fn entry_named(name: &[u8], p: u64) -> Option<usize>
    ensures { result ≡ entry_named file_tables name.now p }
{
    if same(b"mode", name) {
        return entry_in(p, 0, 4);
    }
    if same(b"vector", name) {
        return entry_in(p, 4, 64);
    }
    if same(b"intramean", name) {
        return entry_in(p, 68, 256);
    }
    if same(b"intermean", name) {
        return entry_in(p, 324, 512);
    }
    if same(b"intrastage", name) {
        return entry_in(p, 836, 48);
    }
    if same(b"interstage", name) {
        return entry_in(p, 884, 48);
    }
    None
}

// The two last fields of a line, behind its entry: a length and a code.
fn read_code(t: &[u8], entry: usize) -> Option<FileEntry>
    ensures { line_told result ≡ file_code_at (Some entry) (fields_of t.now) }
{
    let a = find(t, b',')?;
    let long = read_number(&t[..a], 65535)?;
    let value = read_number(&t[a + 1..], 65535)?;
    Some(FileEntry { entry, long, value })
}

// A line, without its line feed: table, position, length, code.
fn read_line(t: &[u8]) -> Option<FileEntry>
    ensures { line_told result ≡ line_read (fields_of t.now) }
{
    let a = find(t, b',')?;
    let rest = &t[a + 1..];
    let b = find(rest, b',')?;
    let p = read_number(&rest[..b], 65535)?;
    let entry = entry_named(&t[..a], p)?;
    read_code(&rest[b + 1..], entry)
}

// An entry's three bytes put into a book: the code's high byte, its low byte, its length. 255 stands for a length that no byte holds, and is refused by 6 as that is.
fn put_entry(book: &mut [u8], e: usize, long: u64, value: u64)
    requires { (3 * e + 3 ≤ length book.old) × (value ≤ 65535) }
    ensures { book.new ≡ with_entry book.old e long value }
{
    let entry = [
        (value / 256) as u8,
        (value % 256) as u8,
        long.min(255) as u8,
    ];
    put_text(book, 3 * e, &entry);
}

// Every line of a file: its entry put into the book and marked as met. The lines are in order where each speaks of the next entry; none where one is
// malformed or doubled. Lines differ in length, so that a `for` is no plainer.
fn read_lines(file: &[u8], book: &mut [u8], met: &mut [u8]) -> Option<bool>
    requires { (length book.old ≡ book_bytes) × (length met.old ≡ book_entries) }
    ensures { held_told result book.new met.new ≡ scanned 0 (file_lines file.now) (begun book.old met.old) }
{
    let mut at = 0;
    let mut next = 0;
    let mut ordered = true;
    while at < file.len() {
        let rest = &file[at..];
        let n = find(rest, b'\n')?;
        let line = read_line(&rest[..n])?;
        if met[line.entry] != 0 {
            return None;
        }
        met[line.entry] = 1;
        put_entry(book, line.entry, line.long, line.value);
        ordered &= line.entry == next;
        next += 1;
        at += n + 1;
    }
    Some(ordered)
}

// Whether every entry was met.
fn all_met(met: &[u8]) -> bool
    ensures { result ≡ all_met met.now }
{
    met.iter().all(|m| *m == 1)
}

// A file's book read into local bytes, unless it is refused.
fn read_into(file: &[u8], book: &mut [u8], met: &mut [u8]) -> Result<(), Refusal>
    requires { (length book.old ≡ book_bytes) × Unmet met.old }
    ensures { FileHeld file.now (refused_by result) book.new }
{
    let Some(ordered) = read_lines(file, book, met) else {
        return Err(Refusal::TableLength);
    };
    if !all_met(met) {
        return Err(Refusal::TableLength);
    }
    if !ordered {
        return Err(Refusal::FileOrder);
    }
    check_book(book)
}

// A book file read into a lent book. Where it is refused the lent book stays as it is.
pub fn read_book_file(file: &[u8], book: &mut [u8]) -> Result<(), Refusal>
    ensures { BookFileRead file.now book.old (refused_by result) book.new }
{
    if book.len() != BOOK_BYTES {
        return Err(Refusal::TableLength);
    }
    let mut held = [0u8; BOOK_BYTES];
    let mut met = [0u8; BOOK_ENTRIES];
    read_into(file, &mut held, &mut met)?;
    book.copy_from_slice(&held);
    Ok(())
}
