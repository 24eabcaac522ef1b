// A leaf's bits, counted and written.
ghost use Rattle.std.specs.Prelude.{◌≡◌, ◌+◌, ◌-◌, ◌*◌, ◌<◌, ◌≤◌, min, length, take};
ghost use Rattle.std.proofs.Math.IntN.{sub_ℕ};
ghost use Rattle.bits.specs.Basics.{natural};
ghost use Rattle.bits.specs.BitNeeds.{Fits, Wrote};
ghost use Rattle.book.specs.Book.{book_refusal};
ghost use Rattle.book.specs.Level.{level_number};
ghost use Rattle.codebook.specs.Mean.{mean_position};
ghost use Rattle.leaf.specs.LeafForms.{leaf_of};
ghost use Rattle.leaf.specs.LeafBits.{stage_bits};
ghost use Rattle.leaf.specs.LentNeeds.{lent_bits, LentTables, CodeFits, LeafSize, Writable, BookLeafSize};

use super::super::svq1_enc_leaf::LeafCode;
use book::inner::{mean_table, stage_table};
use book::svq1_blocktree::Svq1Level;
use book::svq1_vlc::Svq1Half;

// The signed mean of one kept plus 256.
pub fn signed_mean(m: u16) -> i16
    requires { m ≤ 511 }
    ensures { result ≡ sub_ℕ m 256 }
{
    (m as i16) - 256
}

// A number that is not below 0, or 0.
fn not_negative(z: i32) -> usize
    ensures { result ≡ natural z }
{
    z.max(0) as usize
}

// The position of a mean in its half's table.
pub fn mean_position(half: Svq1Half, mean: i16) -> usize
    ensures { result ≡ mean_position half mean }
{
    let m = mean as i32;
    match half {
        Svq1Half::Intra => not_negative(m),
        Svq1Half::Inter => not_negative(m + 256),
    }
}

// The stages that a code counts: six at most.
pub fn stage_count(count: u8) -> usize
    ensures { result ≡ min count 6 }
{
    count.min(6) as usize
}

// The first `count` stage indices, four bits each.
fn put_stages(out: &mut [u8], at: usize, count: usize, stages: [u8; 6]) -> usize
    requires { (count ≤ 6) × Fits (length out.old) at (4 * count) }
    ensures { Wrote out.old at (stage_bits (take count stages)) result out.new }
{
    let mut p = at;
    for i in 0..count {
        p = bits::inner::put_bits(out, p, 4, stages[i] as u32);
    }
    p
}

// How many bits a coded leaf has.
fn coded_bits(stage: &[u8], means: &[u8], half: Svq1Half, mean: i16, count: u8) -> u32
    requires { LentTables half stage.now means.now × CodeFits half (LeafCode.Coded mean count) }
    ensures { LeafSize half stage.now means.now (LeafCode.Coded mean count) result }
{
    let k = mean_position(half, mean);
    let n = stage_count(count);
    let s = code_tables::inner::entry_len(stage, n + 1);
    let m = code_tables::inner::entry_len(means, k);
    s + m + 4 * (n as u32)
}

// How many bits a leaf has by the two tables.
pub fn leaf_bits(stage: &[u8], means: &[u8], half: Svq1Half, code: LeafCode) -> u32
    requires { LentTables half stage.now means.now × CodeFits half code }
    ensures { LeafSize half stage.now means.now code result }
{
    match code {
        LeafCode::Skip => code_tables::inner::entry_len(stage, 0),
        LeafCode::Coded { mean, count } => coded_bits(stage, means, half, mean, count),
    }
}

// A coded leaf: the code of its stage count, that of its mean, and the stages.
fn put_coded(
    out: &mut [u8],
    at: usize,
    stage: &[u8],
    means: &[u8],
    half: Svq1Half,
    mean: i16,
    count: u8,
    stages: [u8; 6],
) -> usize
    requires { Writable half stage.now means.now (LeafCode.Coded mean count) stages (length out.old) at }
    ensures { Wrote out.old at (lent_bits half stage.now means.now (leaf_of (LeafCode.Coded mean count) stages)) result out.new }
{
    let k = mean_position(half, mean);
    let n = stage_count(count);
    let p = code_tables::inner::put_code(out, at, stage, n + 1);
    let q = code_tables::inner::put_code(out, p, means, k);
    put_stages(out, q, n, stages)
}

// A leaf by the two tables, from bit `at` on; the answer is the bit behind it.
pub fn put_leaf(
    out: &mut [u8],
    at: usize,
    stage: &[u8],
    means: &[u8],
    half: Svq1Half,
    code: LeafCode,
    stages: [u8; 6],
) -> usize
    requires { Writable half stage.now means.now code stages (length out.old) at }
    ensures { Wrote out.old at (lent_bits half stage.now means.now (leaf_of code stages)) result out.new }
{
    match code {
        LeafCode::Skip => code_tables::inner::put_code(out, at, stage, 0),
        LeafCode::Coded { mean, count } => {
            put_coded(out, at, stage, means, half, mean, count, stages)
        }
    }
}

// How many bits a leaf has by a book's tables.
pub fn book_leaf_bits(book: &[u8], level: Svq1Level, half: Svq1Half, code: LeafCode) -> u32
    requires { (book_refusal book.now ≡ 0) × CodeFits half code }
    ensures { BookLeafSize book.now half (level_number level) code result }
{
    let stage = stage_table(book, half, level);
    leaf_bits(stage, mean_table(book, half), half, code)
}
