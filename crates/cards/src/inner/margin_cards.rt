// Margins (document 02, §4): leaves at L0, inter half, over a flat predictor of 100, in a codebook of zeros but for three vectors, so that each error can be
// worked out by hand. The first block differs from 100 by 5 and -5: stage 0 takes its error from 200 to 8, stage 1 from 8 to 0. The second differs by
// 3 + 8, 3 - 8, -3 + 8 and -3 - 8: stage 0 takes its error from 584 only to 520, stage 1 would take it to 8. The third is 101, which its mean meets.
ghost use Rattle.std.specs.Prelude.{◌≡◌, ◌≤◌, length};
ghost use Rattle.book.specs.Book.{codebook_bytes};

use super::super::inner::line::{print_line, put_number, put_numbers};
use bits::inner::put_row;
use bits::refusal::Refusal;
use book::inner::CODEBOOK_BYTES;
use leaf::svq1_enc_leaf::LeafCode;
use leaf_call::svq1_enc_leaf::{LeafAnswer, search_leaf};
use text::put_text;

// In L0's inter page, which begins at 22,272 and has sixteen vectors of eight bytes a stage: vector 3 of stage 0, and vectors 5 and 9 of stage 1.
fn lay_vectors(codebook: &mut [u8])
    requires { length codebook.old ≡ codebook_bytes }
{
    let fours = [4, 4, 4, 4, 252, 252, 252, 252];
    let ones = [1, 1, 1, 1, 255, 255, 255, 255];
    let eights = [8, 248, 8, 248, 8, 248, 8, 248];
    put_row(codebook, 22296, &fours);
    put_row(codebook, 22440, &ones);
    put_row(codebook, 22472, &eights);
}

// The indices of a leaf's stages, the first `count` of those lent.
fn put_stages(line: &mut [u8], at: usize, count: usize, stages: &[u8]) -> usize {
    if count == 0 {
        return put_text(line, at, b"no stage");
    }
    if stages.len() < count {
        return put_text(line, at, b"more stages than there are");
    }
    let end = put_text(line, at, b"stages");
    put_numbers(line, end, &stages[..count])
}

// A leaf: skip, or the stages.
fn put_leaf(line: &mut [u8], at: usize, code: LeafCode, stages: [u8; 6]) -> usize {
    match code {
        LeafCode::Skip => put_text(line, at, b"skip"),
        LeafCode::Coded { mean: _, count } => put_stages(line, at, count as usize, &stages),
    }
}

fn put_weight(line: &mut [u8], at: usize, error: u32, bits: u32) -> usize {
    let end = put_number(line, at, b", error ", error as u64);
    put_number(line, end, b", bits ", bits as u64)
}

// What the search answered: a refusal, or the leaf, its error and its bits.
fn put_found(line: &mut [u8], at: usize, found: Result<LeafAnswer, Refusal>) -> usize {
    match found {
        Ok(f) => {
            let leaf = put_leaf(line, at, f.code, f.stages);
            put_weight(line, leaf, f.error, f.bits)
        }
        Err(refusal) => {
            let told = put_number(line, at, b"refused ", refusal.number() as u64);
            put_weight(line, told, 0, 0)
        }
    }
}

// What was asked.
fn put_asked(line: &mut [u8], target: [u8; 8], skip: bool, margin: u32) -> usize {
    let samples = put_text(line, 0, b"leaf of");
    let over = put_numbers(line, samples, &target);
    let asked = put_number(line, over, b" over 100, margin ", margin as u64);
    if skip {
        put_text(line, asked, b", skip allowed: ")
    } else {
        put_text(line, asked, b": ")
    }
}

fn print_leaf(
    rt: &impl Print,
    line: &mut [u8],
    book: &[u8],
    codebook: &[u8],
    target: [u8; 8],
    skip: bool,
    margin: u32,
) -> usize
    ensures { result ≤ 1 }
{
    let flat = [100u8; 8];
    let asked = put_asked(line, target, skip, margin);
    let found = search_leaf(book, codebook, 0, 1, &target, &flat, 6, skip, margin);
    let all = put_found(line, asked, found);
    print_line(rt, line, all)
}

// The last stage, of gain 8: no margin, one less than the gain, the gain, one more.
fn print_last_stage(
    rt: &impl Print,
    line: &mut [u8],
    book: &[u8],
    codebook: &[u8],
    target: [u8; 8],
) -> usize
    ensures { result ≤ 4 }
{
    let none = print_leaf(rt, line, book, codebook, target, false, 0);
    let less = print_leaf(rt, line, book, codebook, target, false, 7);
    let same = print_leaf(rt, line, book, codebook, target, false, 8);
    none + less + same + print_leaf(rt, line, book, codebook, target, false, 9)
}

// The first stage, of gain 192: one less, the gain, the same with skip allowed, which wins at equal error, and the largest margin, where a sum of 32 bits
// would wrap.
fn print_first_stage(
    rt: &impl Print,
    line: &mut [u8],
    book: &[u8],
    codebook: &[u8],
    target: [u8; 8],
) -> usize
    ensures { result ≤ 4 }
{
    let less = print_leaf(rt, line, book, codebook, target, false, 191);
    let same = print_leaf(rt, line, book, codebook, target, false, 192);
    let skipped = print_leaf(rt, line, book, codebook, target, true, 192);
    less + same + skipped + print_leaf(rt, line, book, codebook, target, false, 4294967295)
}

// A first stage of gain 64 ends the leaf at that margin, whatever the second would gain.
fn print_early_end(rt: &impl Print, line: &mut [u8], book: &[u8], codebook: &[u8]) -> usize
    ensures { result ≤ 2 }
{
    let target = [111, 95, 111, 95, 105, 89, 105, 89];
    let goes_on = print_leaf(rt, line, book, codebook, target, false, 63);
    goes_on + print_leaf(rt, line, book, codebook, target, false, 64)
}

// Skip is compared by plain errors: 8 against 0, whatever the margin is.
fn print_skip(rt: &impl Print, line: &mut [u8], book: &[u8], codebook: &[u8]) -> usize
    ensures { result ≤ 1 }
{
    let target = [101u8; 8];
    print_leaf(rt, line, book, codebook, target, true, 8)
}

pub fn print_margins(rt: &impl Print, line: &mut [u8], book: &[u8]) -> usize
    ensures { result ≤ 11 }
{
    let mut codebook = [0u8; CODEBOOK_BYTES];
    lay_vectors(&mut codebook);
    let target = [105, 105, 105, 105, 95, 95, 95, 95];
    let last = print_last_stage(rt, line, book, &codebook, target);
    let first = print_first_stage(rt, line, book, &codebook, target);
    let early = print_early_end(rt, line, book, &codebook);
    last + first + early + print_skip(rt, line, book, &codebook)
}
