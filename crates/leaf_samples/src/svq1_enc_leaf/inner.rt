// A leaf's samples: sums of predictor, mean and vectors, kept plus a bias, what they show, and squared errors.
ghost use Rattle.std.specs.Prelude.{◌≡◌, ℕ, ◌+◌, ◌-◌, ◌*◌, ◌<◌, ◌≤◌, min, length, take, drop, get_or};
ghost use Rattle.std.proofs.Math.IntN.{sub_ℕ};
ghost use Rattle.bits.specs.Basics.{gap};
ghost use Rattle.codebook.specs.Mean.{saturate};
ghost use Rattle.leaf.specs.Leaf.{coded, sse, plus, samples, seeded, staged, leaf_shown};
ghost use Rattle.leaf.specs.LeafForms.{less, Below, plus_n, sqd, vectors_in, leaf_of};
ghost use Rattle.leaf_samples.specs.ShowNeeds.{MeanKnown, SizedSums, Staging, CodeShows, Adding};

use book::svq1_vlc::Svq1Half;
use leaf::svq1_enc_leaf::LeafCode;
use leaf::svq1_enc_leaf::inner::{mean_position, stage_count};

// What `a` is above `b`, or 0.
fn above(a: u16, b: u16) -> u16
    ensures { result ≡ a - b }
{
    if b < a { a - b } else { 0 }
}

// The sample that a sum shows.
fn shown(a: u16, bias: u16) -> u16
    ensures { result ≡ min 255 (a - bias) }
{
    let d = above(a, bias);
    if d < 255 { d } else { 255 }
}

// The distance of two samples.
fn distance(t: u8, c: u16) -> u16
    ensures { result ≡ gap t c }
{
    let x = t as u16;
    if x < c { c - x } else { x - c }
}

// The square of that distance.
fn squared(t: u8, c: u16) -> u16
    requires { c ≤ 255 }
    ensures { (result ≡ sqd t c) × (result ≤ 65025) }
{
    let d = distance(t, c);
    d * d
}

pub fn wide(x: u8) -> u16
    ensures { (result ≡ x) × (result ≤ 255) }
{
    x as u16
}

// The vector `w` added to `a`.
fn add_vector(a: &mut [u16], w: &[u8])
    requires { (length w.now ≡ length a.old) × Below 4095 a.old }
    ensures a_after { a.new ≡ plus_n a.old w.now }
    ensures by_index { (i : ℕ) → get_or a.new i 0 ≤ get_or a.old i 0 + 255 }
{
    for i in 0..a.len() {
        a[i] = a[i] + wide(w[i]);
    }
}

// The j-th of the sixteen vectors from `base` on added to `a`.
pub fn add_stage(a: &mut [u16], book: &[u8], base: usize, j: usize)
    requires { (base + length a.old * 16 ≤ length book.now) × (j < 16) × Below 4095 a.old }
    ensures a_after { a.new ≡ plus_n a.old (take (length a.old) (drop (base + length a.old * j) book.now)) }
    ensures by_index { (i : ℕ) → get_or a.new i 0 ≤ get_or a.old i 0 + 255 }
{
    let n = a.len();
    let at = base + n * j;
    let end = at + n;
    add_vector(a, &book[at..end]);
}

// The sums before any stage: the predictor and the mean, which is kept plus 256.
pub fn seed(a: &mut [u16], p: &[u8], mean: u16)
    requires { (length p.now ≡ length a.old) × (mean ≤ 511) }
    ensures a_after { less 256 a.new ≡ seeded (sub_ℕ mean 256) p.now }
    ensures below { Below 1000 a.new }
{
    for i in 0..a.len() {
        a[i] = wide(p[i]) + mean;
    }
}

// The squared error of one sum against the sample `t`.
fn error_at(t: u8, a: u16, bias: u16) -> u16
    ensures value { result ≡ sqd t (saturate (sub_ℕ a bias)) }
    ensures upper_bound { result ≤ 65025 }
{
    squared(t, shown(a, bias))
}

// The squared error of the sums `a` with the vector `w` added. A sum is kept plus `bias` - 128, and `w`'s samples plus 128. Two 16-bit
// totals, of the low and the high bytes, cannot overflow for 256 samples.
pub fn vector_sse(t: &[u8], a: &[u16], w: &[u8], bias: u16) -> u32
    requires { (length t.now ≤ 256) × (length a.now ≡ length t.now) × (length w.now ≡ length t.now) × Below 4095 a.now × (128 ≤ bias) }
    ensures { result ≡ sse t.now (samples (plus (less (bias - 128) a.now) (less 128 w.now))) }
{
    let mut low: u16 = 0;
    let mut high: u16 = 0;
    for i in 0..t.len() {
        let e = error_at(t[i], a[i] + wide(w[i]), bias);
        low += e % 256;
        high += e / 256;
    }
    (low as u32) + (high as u32) * 256
}

// The vector of zeros, whose samples are kept plus 128.
const ZERO_VECTOR: [u8; 256] = [128; 256];

// The squared error of the sums `a` as they are, each kept plus `bias`.
pub fn sums_error(t: &[u8], a: &[u16], bias: u16) -> u32
    requires { (length t.now ≤ 256) × (length a.now ≡ length t.now) × Below 1000 a.now × (bias ≤ 1000) }
    ensures { result ≡ sse t.now (samples (less bias a.now)) }
{
    let n = t.len();
    vector_sse(t, a, &ZERO_VECTOR[..n], bias + 128)
}

// Sums to which a block is added as if its samples were a vector's, kept plus 128.
const SUMS_OF_128: [u16; 256] = [128; 256];

// The squared distance of two blocks.
pub fn distance_of(t: &[u8], p: &[u8]) -> u32
    requires { (length t.now ≤ 256) × (length p.now ≡ length t.now) }
    ensures { result ≡ sse t.now p.now }
{
    let n = t.len();
    vector_sse(t, &SUMS_OF_128[..n], p, 128)
}

// The samples that the sums show.
pub fn show(a: &[u16], bias: u16, out: &mut [u8])
    requires { length out.old ≡ length a.now }
    ensures { out.new ≡ samples (less bias a.now) }
{
    for i in 0..out.len() {
        out[i] = narrow(shown(a[i], bias));
    }
}

fn narrow(x: u16) -> u8
    requires { x ≤ 255 }
    ensures { result ≡ x }
{
    x as u8
}

// The bias of sums with this many stages added.
pub fn bias_of(count: usize) -> u16
    requires { count ≤ 6 }
    ensures { result ≡ 256 + 128 * count }
{
    256 + 128 * (count as u16)
}

// A mean kept plus 256, by its position in its half's table.
fn raised_mean(half: Svq1Half, mean: i16) -> u16
    requires { MeanKnown half mean }
    ensures { (sub_ℕ result 256 ≡ mean) × (result ≤ 511) }
{
    let k = mean_position(half, mean) as u16;
    match half {
        Svq1Half::Intra => 256 + k,
        Svq1Half::Inter => k,
    }
}

// The vectors of the first `count` stages added to the sums `a`.
fn add_stages(a: &mut [u16], book: &[u8], base: usize, count: usize, stages: [u8; 6])
    requires { Adding a.old (length book.now) base count stages }
    ensures { less (256 + 128 * count) a.new ≡ staged (vectors_in book.now base (length a.old)) 0 (less 256 a.old) (take count stages) }
{
    let n = a.len();
    let mut at = base;
    for k in 0..count {
        let j = stages[k] as usize;
        add_stage(a, book, at, j);
        at += n * 16;
    }
}

// The samples of a coded leaf over the predictor `p`, into `out`; its mean is kept plus 256, and `a` is scratch.
fn show_coded(
    p: &[u8],
    a: &mut [u16],
    out: &mut [u8],
    book: &[u8],
    base: usize,
    mean: u16,
    count: usize,
    stages: [u8; 6],
)
    requires { (mean ≤ 511) × SizedSums p.now a.old out.old × Staging (length p.now) (length book.now) base count stages }
    ensures { out.new ≡ leaf_shown (vectors_in book.now base (length p.now)) p.now (coded (sub_ℕ mean 256) (take count stages)) }
{
    seed(a, p, mean);
    add_stages(a, book, base, count, stages);
    show(a, bias_of(count), out);
}

// The samples of a leaf over the predictor `p`, into `out`; `a` is scratch. `book` is the raised codebook, and the page begins at `base`.
pub fn show_leaf(
    half: Svq1Half,
    p: &[u8],
    a: &mut [u16],
    out: &mut [u8],
    book: &[u8],
    base: usize,
    code: LeafCode,
    stages: [u8; 6],
)
    requires { SizedSums p.now a.old out.old × CodeShows half (length p.now) (length book.now) base code stages }
    ensures { out.new ≡ leaf_shown (vectors_in book.now base (length p.now)) p.now (leaf_of code stages) }
{
    match code {
        LeafCode::Skip => out.copy_from_slice(p),
        LeafCode::Coded { mean, count } => {
            let m = raised_mean(half, mean);
            let n = stage_count(count);
            show_coded(p, a, out, book, base, m, n, stages)
        }
    }
}
