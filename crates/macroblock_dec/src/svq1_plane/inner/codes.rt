// Codes, modes and vectors, read from a bit string.
ghost use Rattle.std.specs.Prelude.{◌≡◌, true, ◌<◌, length, IfOk};
ghost use Rattle.code_tables.specs.Codes.{good_table};
ghost use Rattle.bits.specs.BitNeeds.{Fits};
ghost use Rattle.book.specs.Book.{vector_table};
ghost use Rattle.vectors.specs.Vectors.{difference_at};
ghost use Rattle.tree.specs.WalkNeeds.{Reads};
ghost use Rattle.macroblock.specs.Mode.{mode_position};
ghost use Rattle.macroblock_dec.specs.FindingNeeds.{PositionFound, ModeFound, DifferenceFound, VectorFound};

use bits::refusal::Refusal;
use book::inner::{mode_table, vector_table};
use code_tables::inner::read_code;
use code_tables::svq1_vlc::CodeFound;
use macroblock::svq1_enc_inter::Svq1MbMode;
use vectors::svq1_motion_predictor::{Svq1Mv, final_motion_vector};

// A mode, the two positions of a difference (x before y) and a vector with its difference, that were read: each with the bit behind it.
#[derive(Clone, Copy)]
pub struct ReadMode {
    pub next: usize,
    pub mode: Svq1MbMode,
}

#[derive(Clone, Copy)]
pub struct ReadPair {
    pub next: usize,
    pub x: usize,
    pub y: usize,
}

#[derive(Clone, Copy)]
pub struct ReadMv {
    pub next: usize,
    pub mv: Svq1Mv,
    pub diff: Svq1Mv,
}

// The code of the table that stands at bit `at`.
fn read_position(s: &[u8], at: usize, table: &[u8]) -> Result<CodeFound, Refusal>
    requires { Fits (length s.now) at 0 × (good_table table.now ≡ true) }
    ensures { PositionFound s.now at table.now result }
{
    read_code(s, at, table)
}

// The mode whose code has this position.
fn mode_at(k: usize) -> Svq1MbMode
    requires { k < 4 }
    ensures { mode_position result ≡ k }
{
    match k {
        0 => Svq1MbMode::Inter,
        1 => Svq1MbMode::Inter4Mv,
        2 => Svq1MbMode::Intra,
        _ => Svq1MbMode::Skip,
    }
}

// The mode that stands at bit `at`.
pub fn read_mb_mode(s: &[u8], at: usize, book: &[u8]) -> Result<ReadMode, Refusal>
    requires { Reads book.now 5 (length s.now) at }
    ensures { ModeFound s.now book.now at result }
{
    let code = read_position(s, at, mode_table(book))?;
    Ok(ReadMode {
        next: code.next,
        mode: mode_at(code.position),
    })
}

// The position of a component's difference.
fn read_mv_component(s: &[u8], at: usize, book: &[u8]) -> Result<CodeFound, Refusal>
    requires { Reads book.now 5 (length s.now) at }
    ensures { PositionFound s.now at (vector_table book.now) result × IfOk result (λ r. r.position < 64) }
{
    read_position(s, at, vector_table(book))
}

// The positions of a difference's components, x before y.
pub fn read_mv_differential(s: &[u8], at: usize, book: &[u8]) -> Result<ReadPair, Refusal>
    requires { Reads book.now 5 (length s.now) at }
    ensures { DifferenceFound s.now book.now at result × IfOk result (λ r. (r.x < 64) × (r.y < 64)) }
{
    let x = read_mv_component(s, at, book)?;
    let y = read_mv_component(s, x.next, book)?;
    Ok(ReadPair {
        next: y.next,
        x: x.position,
        y: y.position,
    })
}

// The difference whose code has this position.
fn difference_at(k: usize) -> i32
    requires { k < 64 }
    ensures { result ≡ difference_at k }
{
    k as i32 - 32
}

// The vector that stands at bit `at`, against its predictor, and its difference as it stands there.
pub fn read_vector(s: &[u8], at: usize, book: &[u8], predictor: Svq1Mv) -> Result<ReadMv, Refusal>
    requires { Reads book.now 5 (length s.now) at }
    ensures { VectorFound s.now book.now at predictor result }
{
    let pair = read_mv_differential(s, at, book)?;
    let x = difference_at(pair.x);
    let y = difference_at(pair.y);
    Ok(ReadMv {
        next: pair.next,
        mv: final_motion_vector(predictor, x, y),
        diff: Svq1Mv::new(x, y),
    })
}
