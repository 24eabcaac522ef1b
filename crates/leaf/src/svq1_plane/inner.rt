// A leaf, read.
ghost use Rattle.std.specs.Prelude.{◌≡◌, ◌&&◌, ◌+◌, ◌-◌, ◌*◌, ◌<◌, ◌≤◌, length, take, drop, ltb};
ghost use Rattle.bits.specs.BitNeeds.{Fits};
ghost use Rattle.bits.specs.Bits.{val_of, bits_of};
ghost use Rattle.codebook.specs.Mean.{mean_at};
ghost use Rattle.leaf.specs.LeafBits.{read_skip, read_leaf};
ghost use Rattle.leaf.specs.LentNeeds.{LentTables, lent_tables, MeanTable, padded, LeafRead, nibbles, read_indices, read_mean, lent_rest};

use super::super::svq1_enc_leaf::LeafCode;
use super::super::svq1_enc_leaf::inner::signed_mean;
use bits::refusal::Refusal;
use book::svq1_vlc::Svq1Half;
use code_tables::inner::read_code;

// A leaf that was read, and the bit behind it.
#[derive(Clone, Copy)]
pub struct ReadLeaf {
    pub next: usize,
    pub code: LeafCode,
    pub stages: [u8; 6],
}

// The mean at a position of its half's table.
fn mean_at(half: Svq1Half, k: usize) -> i16
    requires { k < 512 }
    ensures { result ≡ mean_at half k }
{
    match half {
        Svq1Half::Intra => k as i16,
        Svq1Half::Inter => signed_mean(k as u16),
    }
}

// A stage index: the four bits from bit `at` on.
fn get_nibble(s: &[u8], at: usize) -> u8
    requires { Fits (length s.now) at 4 }
    ensures { result ≡ val_of (take 4 (drop at (bits_of s.now))) }
{
    bits::inner::get_bits(s, at, 4) as u8
}

// The indices of `count` stages, and zeros behind them.
fn get_stages(s: &[u8], at: usize, count: usize) -> [u8; 6]
    requires { (count ≤ 6) × Fits (length s.now) at (4 * count) }
    ensures { result ≡ padded (nibbles (bits_of s.now) at count) }
{
    let mut stages = [0u8; 6];
    for i in 0..count {
        stages[i] = get_nibble(s, at + 4 * i);
    }
    stages
}

// What stands behind a mean: the stages.
fn read_stages(s: &[u8], at: usize, mean: i16, count: usize) -> Result<ReadLeaf, Refusal>
    requires { (count ≤ 6) × Fits (length s.now) at 0 }
    ensures { LeafRead (bits_of s.now) (read_indices mean count (drop at (bits_of s.now))) result }
{
    if 8 * s.len() - at < 4 * count {
        return Err(Refusal::BitsEnd);
    }
    Ok(ReadLeaf {
        next: at + 4 * count,
        code: LeafCode::Coded {
            mean,
            count: count as u8,
        },
        stages: get_stages(s, at, count),
    })
}

// What stands behind a stage code that counts `count` stages: the mean and the stages.
fn read_mean(
    s: &[u8],
    at: usize,
    table: &[u8],
    half: Svq1Half,
    count: usize,
) -> Result<ReadLeaf, Refusal>
    requires { (count ≤ 6) × Fits (length s.now) at 0 × MeanTable half table.now }
    ensures { LeafRead (bits_of s.now) (read_mean half table.now count (drop at (bits_of s.now))) result }
{
    let found = read_code(s, at, table)?;
    read_stages(s, found.next, mean_at(half, found.position), count)
}

// What stands behind a stage code that means skip: nothing, and the intra half has no skip.
fn read_skip(s: &[u8], at: usize, half: Svq1Half) -> Result<ReadLeaf, Refusal>
    requires { Fits (length s.now) at 0 }
    ensures { LeafRead (bits_of s.now) (read_skip half (drop at (bits_of s.now))) result }
{
    match half {
        Svq1Half::Intra => Err(Refusal::LeafClosed),
        Svq1Half::Inter => Ok(ReadLeaf {
            next: at,
            code: LeafCode::Skip,
            stages: [0u8; 6],
        }),
    }
}

// Whether a level has no place for this many stages.
#[tactic(auto, using(std::proofs::lemmas::Bool::Decides::nat_tests))]
fn stages_closed(level: usize, count: usize) -> bool
    ensures { result ≡ (ltb 3 level && ltb 0 count) }
{
    3 < level && 0 < count
}

// What stands behind the stage code at position k.
fn read_rest(
    s: &[u8],
    at: usize,
    table: &[u8],
    half: Svq1Half,
    level: usize,
    k: usize,
) -> Result<ReadLeaf, Refusal>
    requires { (k < 8) × Fits (length s.now) at 0 × MeanTable half table.now }
    ensures { LeafRead (bits_of s.now) (lent_rest half table.now level k (drop at (bits_of s.now))) result }
{
    if k == 0 {
        return read_skip(s, at, half);
    }
    let count = k - 1;
    if stages_closed(level, count) {
        return Err(Refusal::LeafClosed);
    }
    read_mean(s, at, table, half, count)
}

// The leaf that stands at bit `at`, by the two tables of its level and half.
pub fn read_leaf(
    s: &[u8],
    at: usize,
    stage: &[u8],
    means: &[u8],
    half: Svq1Half,
    level: usize,
) -> Result<ReadLeaf, Refusal>
    requires { Fits (length s.now) at 0 × LentTables half stage.now means.now }
    ensures { LeafRead (bits_of s.now) (read_leaf (lent_tables half stage.now means.now) level (drop at (bits_of s.now))) result }
{
    let found = read_code(s, at, stage)?;
    read_rest(s, found.next, means, half, level, found.position)
}
