// Prints the listing of the plane that the five files of the current folder give.
#![tactic(auto)]

ghost use Rattle.std.specs.Prelude.{◌≡◌, ◌≤◌, ◌+◌, ◌*◌, length, take};
ghost use Rattle.book.specs.Book.{codebook_bytes};
ghost use Rattle.listing_job.specs.Job.{most_width, most_height};
ghost use Rattle.listing_text.specs.Cut.{longest_job, longest_book};

use listing_text::listing::listing;
use std::io::Read;
use std::rt::Files;
use std::{fs, io};

// Reads until there is no more room, the file ends or a read fails; the answer is how many bytes were read. Reads differ in length, so that a `for` is no plainer.
fn read_full(file: &mut impl Read, bytes: &mut [u8]) -> usize
    ensures bound { result ≤ length bytes.new }
    ensures front { result ≡ length (take result bytes.new) }
{
    let mut done = 0;
    while done < bytes.len() {
        let n = file.read(&mut bytes[done..]).unwrap_or(0);
        if n == 0 {
            return done;
        }
        done += n;
    }
    done
}

// The first bytes of a file, as many as there is room for. One that cannot be opened reads as empty.
fn read_file(rt: &impl Files, path: &str, bytes: &mut [u8]) -> usize
    ensures bound { result ≤ length bytes.new }
    ensures front { result ≡ length (take result bytes.new) }
{
    match fs::open(rt, path) {
        Ok(mut file) => read_full(&mut file, bytes),
        Err(_) => 0,
    }
}

// Reads the five files and prints the listing. Of each file one byte more is read than the longest that its length does not refuse (`cut` of `listing_text`): what lies
// behind changes nothing that is printed, by its law `cut-same`.
fn list_files(
    rt: &(impl Files + Print),
    book: &mut [u8],
    codebook: &mut [u8],
    source: &mut [u8],
    reference: &mut [u8],
    job: &mut [u8],
) -> io::Result<()>
    requires { (length book.old ≡ longest_book + 1) × (length codebook.old ≡ codebook_bytes + 1) × (length source.old ≡ most_width * most_height + 1) × (length reference.old ≡ most_width * most_height + 1) × (length job.old ≡ longest_job + 1) }
{
    let mut text = [0u8; 16384];
    let b = read_file(rt, "book.txt", book);
    let c = read_file(rt, "codebook.bin", codebook);
    let s = read_file(rt, "source.bin", source);
    let r = read_file(rt, "reference.bin", reference);
    let j = read_file(rt, "job.txt", job);
    let n = listing(
        &book[..b],
        &codebook[..c],
        &source[..s],
        &reference[..r],
        &job[..j],
        &mut text,
    );
    rt.write_all(&text[..n])
}

fn main(rt: HostRuntime) -> io::Result<()> {
    let mut book = [0u8; 23699];
    let mut codebook = [0u8; 23041];
    let mut source = [0u8; 25345];
    let mut reference = [0u8; 25345];
    let mut job = [0u8; 47];
    list_files(
        &rt,
        &mut book,
        &mut codebook,
        &mut source,
        &mut reference,
        &mut job,
    )
}
