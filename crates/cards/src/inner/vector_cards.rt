// The cards of motion vectors: predictors and searches.
ghost use Rattle.std.specs.Prelude.{◌≡◌, ◌≤◌};
ghost use Rattle.motion.specs.Search.{search_answer};
ghost use Rattle.bits.specs.Refusals.{answer_of};
ghost use Rattle.cards.specs.Planes.{card_search};

use super::super::inner::line::{print_line, put_number, put_option, put_vector};
use bits::refusal::Refusal;
use motion::svq1_enc_inter::search_motion_vector;
use text::put_text;
use vectors::svq1_motion_predictor::{Svq1Mv, predict};

// A neighbour's name and its vector, or none.
fn put_neighbour(line: &mut [u8], at: usize, name: &[u8], n: Option<Svq1Mv>) -> usize {
    let end = put_text(line, at, name);
    put_option(line, end, n, b"none", |line, at, v| {
        put_vector(line, at, b"", v)
    })
}

fn print_predictor(
    rt: &impl Print,
    line: &mut [u8],
    left: Option<Svq1Mv>,
    top: Option<Svq1Mv>,
    top_right: Option<Svq1Mv>,
) -> usize
    ensures { result ≤ 1 }
{
    let a = put_neighbour(line, 0, b"left ", left);
    let b = put_neighbour(line, a, b", top ", top);
    let asked = put_neighbour(line, b, b", top right ", top_right);
    let all = put_vector(line, asked, b": predictor ", predict(left, top, top_right));
    print_line(rt, line, all)
}

// Left (4,4) and top (6,-1) only; top (7,-2) only.
pub fn print_predictors(rt: &impl Print, line: &mut [u8]) -> usize
    ensures { result ≤ 2 }
{
    let two = print_predictor(
        rt,
        line,
        Some(Svq1Mv { x: 4, y: 4 }),
        Some(Svq1Mv { x: 6, y: -1 }),
        None,
    );
    let one = print_predictor(rt, line, None, Some(Svq1Mv { x: 7, y: -2 }), None);
    two + one
}

fn put_searched(line: &mut [u8], at: usize, found: Result<Svq1Mv, Refusal>) -> usize {
    match found {
        Ok(v) => put_vector(line, at, b"vector ", v),
        Err(refusal) => put_number(line, at, b"refused ", refusal.number() as u64),
    }
}

// The search of a block of 16 x 16 samples in a plane of 32 x 32, all 100.
#[tactic(auto, unfolding(crate::specs::Planes::card_search))]
fn search_flat(x: usize, y: usize, predictor: Svq1Mv) -> Result<Svq1Mv, Refusal>
    ensures { answer_of result ≡ search_answer (card_search x y predictor) }
{
    let reference = [100u8; 1024];
    let target = [100u8; 256];
    search_motion_vector(&reference, 32, 32, 32, 32, &target, 16, x, y, predictor, 8)
}

fn print_search(rt: &impl Print, line: &mut [u8], x: usize, y: usize, predictor: Svq1Mv) -> usize
    ensures { result ≤ 1 }
{
    let p = put_vector(
        line,
        0,
        b"flat 32x32, radius 8, side 16, predictor ",
        predictor,
    );
    let column = put_number(line, p, b", at ", x as u64);
    let row = put_number(line, column, b",", y as u64);
    let asked = put_text(line, row, b": ");
    let all = put_searched(line, asked, search_flat(x, y, predictor));
    print_line(rt, line, all)
}

// Predictor (-32,0) at 0,0 and at 16,0.
pub fn print_searches(rt: &impl Print, line: &mut [u8]) -> usize
    ensures { result ≤ 2 }
{
    let p = Svq1Mv { x: -32, y: 0 };
    let corner = print_search(rt, line, 0, 0, p);
    corner + print_search(rt, line, 16, 0, p)
}
