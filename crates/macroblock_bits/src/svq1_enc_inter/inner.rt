// A mode's code and the codes of vectors' differences: counted, and put.
ghost use Rattle.std.specs.Prelude.{◌++◌, ◌≡◌, ◌<◌, length};
ghost use Rattle.bits.specs.BitNeeds.{Fits, Wrote};
ghost use Rattle.book.specs.Book.{book_refusal};
ghost use Rattle.vectors.specs.Vectors.{place_of};
ghost use Rattle.vectors.specs.VectorsLaws.{InRange, Inside};
ghost use Rattle.mv_cache.specs.CacheNeeds.{near_from};
ghost use Rattle.macroblock.specs.Macroblock.{four, component_bits, difference_bits, motion_bits, mode_bits};
ghost use Rattle.macroblock.specs.MacroblockLaws.{Codables};
ghost use Rattle.macroblock.specs.MotionForms.{motion_of, Differs};
ghost use Rattle.macroblock_bits.specs.CodingNeeds.{Counted, four_differences};
ghost use Rattle.macroblock.specs.MacroblockNeeds.{by_book};

use book::inner::{mode_table, vector_table};
use code_tables::inner::{entry_len, put_code};
use macroblock::svq1_enc_inter::{MbMotion, Svq1MbMode};
use mv_cache::svq1_mv_cache::{
    NearBlocks, predict_first, predict_fourth, predict_second, predict_third,
};
use vectors::svq1_motion_predictor::Svq1Mv;
use vectors::svq1_motion_predictor::inner::difference_of;

// How many bits a mode's code has.
pub fn mb_mode_bits(book: &[u8], mode: Svq1MbMode) -> u32
    requires { book_refusal book.now ≡ 0 }
    ensures { Counted (mode_bits (by_book book.now) mode) 32 result }
{
    let table = mode_table(book);
    entry_len(table, mode.position())
}

// A mode's code, from bit `at` on.
pub fn put_mode(out: &mut [u8], at: usize, book: &[u8], mode: Svq1MbMode) -> usize
    requires { (book_refusal book.now ≡ 0) × Fits (length out.old) at (length (mode_bits (by_book book.now) mode)) }
    ensures { Wrote out.old at (mode_bits (by_book book.now) mode) result out.new }
{
    let table = mode_table(book);
    put_code(out, at, table, mode.position())
}

// The position of a difference's component in the vector table.
fn difference_place(d: i32) -> usize
    requires { InRange d }
    ensures { (result ≡ place_of d) × (result < 64) }
{
    (d + 32) as usize
}

// How many bits the code of a difference's component has.
fn mv_component_bits(book: &[u8], d: i32) -> u32
    requires { (book_refusal book.now ≡ 0) × InRange d }
    ensures { Counted (component_bits (by_book book.now) d) 32 result }
{
    let table = vector_table(book);
    let k = difference_place(d);
    entry_len(table, k)
}

// The code of a difference's component, from bit `at` on.
fn put_component(out: &mut [u8], at: usize, book: &[u8], d: i32) -> usize
    requires { (book_refusal book.now ≡ 0) × InRange d × Fits (length out.old) at (length (component_bits (by_book book.now) d)) }
    ensures { Wrote out.old at (component_bits (by_book book.now) d) result out.new }
{
    let table = vector_table(book);
    let k = difference_place(d);
    put_code(out, at, table, k)
}

// How many bits a vector's difference has.
fn vector_bits(book: &[u8], diff: Svq1Mv) -> u32
    requires { (book_refusal book.now ≡ 0) × Inside diff }
    ensures { Counted (difference_bits (by_book book.now) diff) 64 result }
{
    let x = mv_component_bits(book, diff.x);
    let y = mv_component_bits(book, diff.y);
    x + y
}

// A vector's difference, x before y.
fn push_mv_differential(out: &mut [u8], at: usize, book: &[u8], diff: Svq1Mv) -> usize
    requires { (book_refusal book.now ≡ 0) × Inside diff × Fits (length out.old) at (length (difference_bits (by_book book.now) diff)) }
    ensures { Wrote out.old at (difference_bits (by_book book.now) diff) result out.new }
{
    let q = put_component(out, at, book, diff.x);
    put_component(out, q, book, diff.y)
}

// Two differences, one behind the other.
fn pair_bits(book: &[u8], a: Svq1Mv, b: Svq1Mv) -> u32
    requires { (book_refusal book.now ≡ 0) × Inside a × Inside b }
    ensures { Counted (difference_bits (by_book book.now) a ++ difference_bits (by_book book.now) b) 128 result }
{
    let x = vector_bits(book, a);
    let y = vector_bits(book, b);
    x + y
}

fn put_pair(out: &mut [u8], at: usize, book: &[u8], a: Svq1Mv, b: Svq1Mv) -> usize
    requires { (book_refusal book.now ≡ 0) × Inside a × Inside b × Fits (length out.old) at (length (difference_bits (by_book book.now) a ++ difference_bits (by_book book.now) b)) }
    ensures { Wrote out.old at (difference_bits (by_book book.now) a ++ difference_bits (by_book book.now) b) result out.new }
{
    let k = push_mv_differential(out, at, book, a);
    push_mv_differential(out, k, book, b)
}

// The differences of four vectors, each predicted from those before it.
fn four_differences(near: NearBlocks, a: Svq1Mv, b: Svq1Mv, c: Svq1Mv, d: Svq1Mv) -> [Svq1Mv; 4]
    requires { Codables (near_from near) (four a b c d) }
    ensures { result ≡ four_differences (near_from near) a b c d }
{
    let first = difference_of(predict_first(near), a);
    let second = difference_of(predict_second(near, a), b);
    let third = difference_of(predict_third(near, a, b), c);
    let fourth = difference_of(predict_fourth(a, b, c), d);
    [first, second, third, fourth]
}

fn four_bits(book: &[u8], near: NearBlocks, a: Svq1Mv, b: Svq1Mv, c: Svq1Mv, d: Svq1Mv) -> u32
    requires { (book_refusal book.now ≡ 0) × Codables (near_from near) (four a b c d) }
    ensures { Counted (motion_bits (by_book book.now) (near_from near) (four a b c d)) 256 result }
{
    let diffs = four_differences(near, a, b, c, d);
    let x = pair_bits(book, diffs[0], diffs[1]);
    let y = pair_bits(book, diffs[2], diffs[3]);
    x + y
}

fn put_four(
    out: &mut [u8],
    at: usize,
    book: &[u8],
    near: NearBlocks,
    a: Svq1Mv,
    b: Svq1Mv,
    c: Svq1Mv,
    d: Svq1Mv,
) -> usize
    requires { (book_refusal book.now ≡ 0) × Codables (near_from near) (four a b c d) × Fits (length out.old) at (length (motion_bits (by_book book.now) (near_from near) (four a b c d))) }
    ensures { Wrote out.old at (motion_bits (by_book book.now) (near_from near) (four a b c d)) result out.new }
{
    let diffs = four_differences(near, a, b, c, d);
    let k = put_pair(out, at, book, diffs[0], diffs[1]);
    put_pair(out, k, book, diffs[2], diffs[3])
}

// How many bits a motion's vectors have: one vector's by the difference that it carries.
pub fn motion_bits(book: &[u8], near: NearBlocks, motion: MbMotion, vectors: [Svq1Mv; 4]) -> u32
    requires { (book_refusal book.now ≡ 0) × Codables (near_from near) (motion_of motion vectors) × Differs (near_from near) motion }
    ensures { Counted (motion_bits (by_book book.now) (near_from near) (motion_of motion vectors)) 256 result }
{
    match motion {
        MbMotion::None => 0,
        MbMotion::One { mv: _, diff } => vector_bits(book, diff),
        MbMotion::Four => four_bits(book, near, vectors[0], vectors[1], vectors[2], vectors[3]),
    }
}

// A motion's vectors, from bit `at` on.
pub fn put_motion(
    out: &mut [u8],
    at: usize,
    book: &[u8],
    near: NearBlocks,
    motion: MbMotion,
    vectors: [Svq1Mv; 4],
) -> usize
    requires { (book_refusal book.now ≡ 0) × Codables (near_from near) (motion_of motion vectors) × Differs (near_from near) motion × Fits (length out.old) at (length (motion_bits (by_book book.now) (near_from near) (motion_of motion vectors))) }
    ensures { Wrote out.old at (motion_bits (by_book book.now) (near_from near) (motion_of motion vectors)) result out.new }
{
    match motion {
        MbMotion::None => at,
        MbMotion::One { mv: _, diff } => push_mv_differential(out, at, book, diff),
        MbMotion::Four => put_four(
            out, at, book, near, vectors[0], vectors[1], vectors[2], vectors[3],
        ),
    }
}
