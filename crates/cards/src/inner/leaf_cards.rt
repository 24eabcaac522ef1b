// The cards of the mean: one leaf at L0, inter half, without stages and without skip.
ghost use Rattle.std.specs.Prelude.{◌≤◌};

use super::super::inner::line::{print_line, put_number, put_short};
use super::super::inner::sums::residual_sum;
use bits::refusal::Refusal;
use leaf::svq1_enc_leaf::LeafCode;
use leaf_call::svq1_enc_leaf::{LeafAnswer, search_leaf};
use text::{put_signed, put_text};

// What the search answered: a refusal, skip, or the mean.
fn put_mean(line: &mut [u8], at: usize, found: Result<LeafAnswer, Refusal>) -> usize {
    match found {
        Ok(leaf) => match leaf.code {
            LeafCode::Skip => put_text(line, at, b"skip"),
            LeafCode::Coded { mean, count: _ } => put_short(line, at, b"mean ", mean),
        },
        Err(refusal) => put_number(line, at, b"refused ", refusal.number() as u64),
    }
}

// What was asked.
fn put_residual(line: &mut [u8], sum: i32) -> usize {
    let number = put_text(line, 0, b"residual sum ");
    let end = put_signed(line, number, i64::from(sum));
    put_text(line, end, b" over 8 samples, inter half: ")
}

fn print_mean(
    rt: &impl Print,
    line: &mut [u8],
    book: &[u8],
    codebook: &[u8],
    target: [u8; 8],
    predictor: [u8; 8],
) -> usize
    ensures { result ≤ 1 }
{
    let asked = put_residual(line, residual_sum(&target, &predictor));
    let found = search_leaf(book, codebook, 0, 1, &target, &predictor, 0, false, 0);
    let all = put_mean(line, asked, found);
    print_line(rt, line, all)
}

// Residual sums 4, 3, -3 and -4, each of three samples that differ.
pub fn print_means(rt: &impl Print, line: &mut [u8], book: &[u8], codebook: &[u8]) -> usize
    ensures { result ≤ 4 }
{
    let flat = [100u8; 8];
    let four = [110, 95, 99, 100, 100, 100, 100, 100];
    let three = [110, 95, 98, 100, 100, 100, 100, 100];
    let less_three = [90, 105, 102, 100, 100, 100, 100, 100];
    let less_four = [90, 105, 101, 100, 100, 100, 100, 100];
    let a = print_mean(rt, line, book, codebook, four, flat);
    let b = print_mean(rt, line, book, codebook, three, flat);
    let c = print_mean(rt, line, book, codebook, less_three, flat);
    let d = print_mean(rt, line, book, codebook, less_four, flat);
    a + b + c + d
}
