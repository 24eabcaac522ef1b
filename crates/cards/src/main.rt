// Runs the bench cards of document 01, and leaves of document 02 worked out by hand, on the library's calls and prints a line for each: what was asked, a colon,
// what came out.
#![tactic(auto)]

mod inner;

ghost use Rattle.std.specs.Prelude.{◌≤◌};

use book::inner::{BOOK_BYTES, CODEBOOK_BYTES};
use house::{fill_house_book, fill_house_codebook};
use std::io;

// The cards of planes, and those of parts that can be called alone; the answer is how many were printed.
fn print_planes(rt: &impl Print, line: &mut [u8], book: &[u8], codebook: &[u8]) -> usize
    ensures { result ≤ 6 }
{
    let small = inner::small_planes::print_planes(rt, line, book, codebook);
    small + inner::wide_planes::print_planes(rt, line, book, codebook)
}

fn print_parts(rt: &impl Print, line: &mut [u8], book: &[u8], codebook: &[u8]) -> usize
    ensures { result ≤ 12 }
{
    let means = inner::leaf_cards::print_means(rt, line, book, codebook);
    let predictors = inner::vector_cards::print_predictors(rt, line);
    let searches = inner::vector_cards::print_searches(rt, line);
    means + predictors + searches + inner::sample_cards::print_samples(rt, line)
}

// All cards. Reading the first one back, the levels, the sums, the signed numbers and the margins are no cards, and are counted by themselves.
fn print_cards(rt: &impl Print, line: &mut [u8], book: &[u8], codebook: &[u8]) -> io::Result<()> {
    let planes = print_planes(rt, line, book, codebook);
    let back = inner::small_planes::print_read_back(rt, line, book, codebook);
    let parts = print_parts(rt, line, book, codebook);
    let levels = inner::levels::print_levels(rt, line);
    let sums = inner::levels::print_sums(rt, line);
    let texts = inner::signed_texts::print_texts(rt, line);
    let margins = inner::margin_cards::print_margins(rt, line, book);
    inner::line::print_counts(rt, line, planes + parts, back, levels, sums, texts, margins)
}

fn main(rt: HostRuntime) -> io::Result<()> {
    let mut book = [0u8; BOOK_BYTES];
    let _ = fill_house_book(&mut book);
    let mut codebook = [0u8; CODEBOOK_BYTES];
    let _ = fill_house_codebook(&mut codebook);
    let mut line = [0u8; 256];
    print_cards(&rt, &mut line, &book, &codebook)
}
