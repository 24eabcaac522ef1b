// Functions that only the crates of this repository call. Most have a `requires`: the caller, proved too, meets it. The functions for
// everybody else are in the modules that keep the names of the original's files.
ghost use Rattle.std.specs.Prelude.{◌≡◌, ◌+◌, ◌*◌, ◌<◌, ◌≤◌, length};
ghost use Rattle.std.proofs.Math.IntN.{sub_ℕ};
ghost use Rattle.book.specs.Level.{level_number};
ghost use Rattle.codebook.specs.Mean.{residual, mean_of};
ghost use Rattle.leaf.specs.Leaf.{sse, samples, argmin, stays, cap_at, terms_at};
ghost use Rattle.leaf.specs.LeafForms.{less, vector_error, Below, Stage, sample_sum};
ghost use Rattle.leaf.specs.LeafNeeds.{SearchReady, Coding, Chosen};
ghost use Rattle.leaf_search.specs.LevelLeafNeeds.{LevelReady, LevelChosen};
ghost use Rattle.leaf_search.specs.StagesNeeds.{Searched};

use super::super::svq1_enc_leaf::LeafChoice;
use bits::inner::put_row;
use book::svq1_blocktree::Svq1Level;
use book::svq1_vlc::Svq1Half;
use codebook::svq1_codebook::inner::page_start;
use leaf::svq1_enc_leaf::inner::signed_mean;
use leaf::svq1_enc_leaf::{LeafCode, LeafTerms};
use leaf_samples::svq1_enc_leaf::inner::{
    add_stage, bias_of, distance_of, seed, show, sums_error, vector_sse, wide,
};

#[derive(Clone, Copy)]
pub struct Best {
    pub index: usize,
    pub error: u32,
}

// The error that the j-th of the sixteen vectors from `base` on leaves.
fn vector_error(t: &[u8], a: &[u16], book: &[u8], base: usize, bias: u16, j: usize) -> u32
    requires stage { Stage t.now a.now book.now base bias }
    requires j_bound { j < 16 }
    ensures { result ≡ vector_error t.now (less bias a.now) book.now base j }
{
    let n = t.len();
    let at = base + n * j;
    let end = at + n;
    vector_sse(t, a, &book[at..end], bias + 128)
}

// The first of the sixteen vectors from `base` on that leaves the least error, and that error.
fn best_vector(t: &[u8], a: &[u16], book: &[u8], base: usize, bias: u16) -> Best
    requires { Stage t.now a.now book.now base bias }
    ensures index_value { result.index ≡ argmin (vector_error t.now (less bias a.now) book.now base) 15 }
    ensures error_value { result.error ≡ vector_error t.now (less bias a.now) book.now base result.index }
    ensures index_bound { result.index < 16 }
{
    let mut error = vector_error(t, a, book, base, bias, 0);
    let mut index = 0;
    for j in 1..16 {
        let e = vector_error(t, a, book, base, bias, j);
        if e < error {
            error = e;
            index = j;
        }
    }
    Best { index, error }
}

// The sum of a block's samples.
pub fn sum_of(t: &[u8]) -> u32
    requires { length t.now ≤ 256 }
    ensures value { result ≡ sample_sum t.now }
    ensures upper_bound { result ≤ 65280 }
{
    let mut sum: u32 = 0;
    for i in 0..t.len() {
        sum += wide(t[i]) as u32;
    }
    sum
}

// The mean, kept plus 256, of n residuals whose targets sum to `st` and predictors to `sp`.
fn mean_of_sums(half: Svq1Half, st: u32, sp: u32, n: u32) -> u16
    requires { (st ≤ 65280) × (sp ≤ 65280) × (n ≤ 256) × (1 ≤ n) }
    ensures result_value { sub_ℕ result 256 ≡ mean_of half (sub_ℕ st sp) n }
    ensures upper_bound { result ≤ 511 }
{
    if sp <= st {
        let q = (st - sp + n / 2) / n;
        if q < 255 { 256 + (q as u16) } else { 511 }
    } else {
        match half {
            Svq1Half::Intra => 256,
            Svq1Half::Inter => {
                let q = (sp - st + n / 2) / n;
                if q < 256 { 256 - (q as u16) } else { 0 }
            }
        }
    }
}

// The mean of a block's residual, kept plus 256.
fn residual_mean(half: Svq1Half, t: &[u8], p: &[u8]) -> u16
    requires { (length t.now ≤ 256) × (1 ≤ length t.now) × (length p.now ≡ length t.now) }
    ensures result_value { sub_ℕ result 256 ≡ mean_of half (residual t.now p.now) (length t.now) }
    ensures upper_bound { result ≤ 511 }
{
    let n = t.len() as u32;
    mean_of_sums(half, sum_of(t), sum_of(p), n)
}

#[derive(Clone, Copy)]
pub struct Stages {
    pub count: usize,
    pub error: u32,
    pub index: [u8; 6],
}

// Whether a stage earns its bits: the error before it is greater than the error after it plus the margin. The sum may pass 32 bits.
fn stays(margin: u32, before: u32, after: u32) -> bool
    ensures { result ≡ stays margin before after }
{
    (after as u64) + (margin as u64) < (before as u64)
}

// Up to the terms' cap of stages, each the best vector, as long as they stay. `a` ends with their vectors added.
fn search_stages(
    t: &[u8],
    a: &mut [u16],
    book: &[u8],
    base: usize,
    bias: u16,
    terms: LeafTerms,
    error: u32,
) -> Stages
    requires t_len_bound { (length t.now ≤ 256) × (length a.old ≡ length t.now) × Below 1000 a.old × (bias ≤ 1000) }
    requires cap_bound { (terms.cap ≤ 6) × (base + length t.now * 16 * terms.cap ≤ length book.now) × (error ≡ sse t.now (samples (less bias a.old))) }
    ensures { Searched (record { target = t.now; sums = a.old; codebook = book.now; base = base; bias = bias; terms = terms }) a.new result }
{
    let n = t.len();
    let mut index = [0u8; 6];
    let mut at = base;
    let mut plus = bias;
    let mut current = error;
    for count in 0..terms.cap {
        let best = best_vector(t, a, book, at, plus);
        let e = best.error;
        let j = best.index;
        if !stays(terms.margin, current, e) {
            return Stages {
                count,
                error: current,
                index,
            };
        }
        add_stage(a, book, at, j);
        index[count] = j as u8;
        at += n * 16;
        plus += 128;
        current = e;
    }
    Stages {
        count: terms.cap,
        error: current,
        index,
    }
}

// The coded leaf by the leaf rules; its samples go into `out`, and `a` is scratch. `book` is the raised codebook, and the page begins at `base`.
fn search_coded(
    terms: LeafTerms,
    t: &[u8],
    p: &[u8],
    a: &mut [u16],
    out: &mut [u8],
    book: &[u8],
    base: usize,
) -> LeafChoice
    requires { SearchReady terms t.now p.now a.old out.old book.now base }
    ensures { Coding terms t.now p.now book.now base result.code result.stages result.error out.new }
{
    let half = terms.half;
    let mean = residual_mean(half, t, p);
    seed(a, p, mean);
    let first = sums_error(t, a, 256);
    let s = search_stages(t, a, book, base, 256, terms, first);
    let count = s.count;
    let stages = s.index;
    show(a, bias_of(count), out);
    LeafChoice {
        code: LeafCode::Coded {
            mean: signed_mean(mean),
            count: count as u8,
        },
        stages,
        error: s.error,
    }
}

// One leaf by the leaf rules; its samples go into `out`, and `a` is scratch.
pub fn choose_leaf(
    terms: LeafTerms,
    t: &[u8],
    p: &[u8],
    a: &mut [u16],
    out: &mut [u8],
    book: &[u8],
    base: usize,
) -> LeafChoice
    requires { SearchReady terms t.now p.now a.old out.old book.now base }
    ensures { Chosen terms t.now p.now book.now base result.code result.stages result.error out.new }
{
    let coded = search_coded(terms, t, p, a, out, book, base);
    if terms.skip {
        let e = distance_of(t, p);
        if e <= coded.error {
            put_row(out, 0, p);
            return LeafChoice {
                code: LeafCode::Skip,
                stages: [0u8; 6],
                error: e,
            };
        }
    }
    coded
}

// The stages open at a level: none at L4 and L5.
fn cap_at(level: Svq1Level, cap: usize) -> usize
    ensures { result ≡ cap_at (level_number level) cap }
{
    match level {
        Svq1Level::L0 | Svq1Level::L1 | Svq1Level::L2 | Svq1Level::L3 => cap,
        Svq1Level::L4 | Svq1Level::L5 => 0,
    }
}

// The terms at a level: their cap as far as stages are open there.
fn terms_at(level: Svq1Level, mut terms: LeafTerms) -> LeafTerms
    ensures { result ≡ terms_at (level_number level) terms }
{
    terms.cap = cap_at(level, terms.cap);
    terms
}

// One leaf of a level by the leaf rules, its samples at the front of `out`; `a` is scratch, and `raised` the raised codebook.
pub fn level_leaf(
    level: Svq1Level,
    terms: LeafTerms,
    t: &[u8],
    p: &[u8],
    a: &mut [u16],
    out: &mut [u8],
    raised: &[u8],
) -> LeafChoice
    requires { LevelReady terms (level_number level) t.now p.now a.old out.old raised.now }
    ensures { LevelChosen terms (level_number level) t.now p.now raised.now result out.old out.new }
{
    let n = t.len();
    let half = terms.half;
    let base = page_start(half, level.number());
    let open = terms_at(level, terms);
    choose_leaf(open, t, p, &mut a[..n], &mut out[..n], raised, base)
}
