// The absolute error of a block against a moved one, row by row.
ghost use Rattle.std.specs.Prelude.{◌≡◌, ◌+◌, ◌*◌, ◌<◌, ◌≤◌, length};
ghost use Rattle.bits.specs.Basics.{gap as gap_of};
ghost use Rattle.compensation.specs.Compensation.{mean2 as meanOf2, mean4 as meanOf4};
ghost use Rattle.compensation.specs.RowForms.{against, against_two, against_four, cells, ReadIn, Summed};

// What summing a vector's absolute error against the best found so far answers: the sum of the rows taken, and their number.
#[derive(Clone, Copy)]
pub struct VectorSum {
    pub sum: u64,
    pub rows: usize,
}

// The absolute difference of two samples, in two forms that the compiler makes `psadbw` of in a sum: by a signed number where both are read, which
// takes nothing else, and of bytes where one is a mean.
fn signed_gap(a: u8, b: u8) -> u32
    ensures { (result ≡ gap_of a b) × (result < 256) }
{
    (i32::from(a) - i32::from(b)).unsigned_abs()
}

fn gap(a: u8, b: u8) -> u16
    ensures { (result ≡ gap_of a b) × (result < 256) }
{
    u16::from(a.abs_diff(b))
}

pub fn mean2(a: u8, b: u8) -> u8
    ensures { result ≡ meanOf2 a b }
{
    ((u16::from(a) + u16::from(b) + 1) / 2) as u8
}

pub fn mean4(a: u8, b: u8, c: u8, d: u8) -> u8
    ensures { result ≡ meanOf4 a b c d }
{
    ((u16::from(a) + u16::from(b) + u16::from(c) + u16::from(d) + 2) / 4) as u8
}

// The absolute error of n samples against a row, against the means of two rows, and of four.
#[tactic(auto, using(bits::specs::SumLaws::sum_more), unfolding(bits::specs::Basics::sum))]
fn sad(t: &[u8], a: &[u8], n: usize) -> u32
    requires { (n ≤ 16) × (length t.now ≡ n) × (length a.now ≡ n) }
    ensures { (result ≡ against t.now a.now n) × (result ≤ 255 * n) }
{
    let mut sum: u32 = 0;
    for i in 0..n {
        sum += signed_gap(t[i], a[i]);
    }
    sum
}

#[tactic(auto, using(bits::specs::SumLaws::sum_more), unfolding(bits::specs::Basics::sum))]
fn sum_two(t: &[u8], a: &[u8], b: &[u8], n: usize) -> u16
    requires { (n ≤ 16) × (length t.now ≡ n) × (length a.now ≡ n) × (length b.now ≡ n) }
    ensures { (result ≡ against_two t.now a.now b.now n) × (result ≤ 255 * n) }
{
    let mut sum: u16 = 0;
    for i in 0..n {
        sum += gap(t[i], mean2(a[i], b[i]));
    }
    sum
}

#[tactic(auto, using(bits::specs::SumLaws::sum_more), unfolding(bits::specs::Basics::sum))]
fn sum_four(t: &[u8], a: &[u8], b: &[u8], c: &[u8], d: &[u8], n: usize) -> u16
    requires { (n ≤ 16) × (length t.now ≡ n) × (length a.now ≡ n) × (length b.now ≡ n) × (length c.now ≡ n) × (length d.now ≡ n) }
    ensures { (result ≡ against_four t.now a.now b.now c.now d.now n) × (result ≤ 255 * n) }
{
    let mut sum: u16 = 0;
    for i in 0..n {
        sum += gap(t[i], mean4(a[i], b[i], c[i], d[i]));
    }
    sum
}

// The row of n samples of t from ti on against those read at p between two columns (ox is 1), two rows (oy is 1) or both.
fn row_between(
    t: &[u8],
    reference: &[u8],
    ti: usize,
    p: usize,
    stride: usize,
    rows: usize,
    n: usize,
    ox: usize,
    oy: usize,
) -> u16
    requires { (n ≤ 16) × (ox < 2) × (oy < 2) × (1 ≤ ox + oy) × (ti + n ≤ length t.now) × (p + oy * stride + ox + n ≤ length reference.now) }
    ensures { (result ≡ cells t.now (record { samples = reference.now; stride = stride; rows = rows }) n ox oy ti p) × (result ≤ 255 * n) }
{
    let right = p + ox;
    let below = p + oy * stride;
    let across = below + ox;
    if ox + oy < 2 {
        return sum_two(
            &t[ti..ti + n],
            &reference[p..p + n],
            &reference[across..across + n],
            n,
        );
    }
    sum_four(
        &t[ti..ti + n],
        &reference[p..p + n],
        &reference[right..right + n],
        &reference[below..below + n],
        &reference[across..across + n],
        n,
    )
}

// The row of n samples of t from ti on against those read at p, at a full sample or between samples.
#[tactic(auto, using(crate::specs::RowFormsLaws::row_full))]
fn row_error(
    t: &[u8],
    reference: &[u8],
    ti: usize,
    p: usize,
    stride: usize,
    rows: usize,
    n: usize,
    ox: usize,
    oy: usize,
) -> u32
    requires { (n ≤ 16) × (ox < 2) × (oy < 2) × (ti + n ≤ length t.now) × (p + oy * stride + ox + n ≤ length reference.now) }
    ensures { (result ≡ cells t.now (record { samples = reference.now; stride = stride; rows = rows }) n ox oy ti p) × (result ≤ 255 * n) }
{
    if 0 < ox + oy {
        return u32::from(row_between(t, reference, ti, p, stride, rows, n, ox, oy));
    }
    sad(&t[ti..ti + n], &reference[p..p + n], n)
}

// The rows of a block, one by one, until their sum reaches the best found so far.
fn sum_rows(
    t: &[u8],
    reference: &[u8],
    x0: usize,
    y0: usize,
    stride: usize,
    rows: usize,
    n: usize,
    ox: usize,
    oy: usize,
    best: u64,
) -> VectorSum
    requires { ReadIn t.now (record { samples = reference.now; stride = stride; rows = rows }) n ox oy x0 y0 }
    ensures { Summed t.now (record { samples = reference.now; stride = stride; rows = rows }) n ox oy x0 y0 best result }
{
    let mut sum: u64 = 0;
    for i in 0..n {
        let row = row_error(
            t,
            reference,
            n * i,
            (y0 + i) * stride + x0,
            stride,
            rows,
            n,
            ox,
            oy,
        );
        sum += u64::from(row);
        if best <= sum {
            return VectorSum { sum, rows: i + 1 };
        }
    }
    VectorSum { sum, rows: n }
}

// The same at a full sample and between samples, with numbers for the side and the place between samples, so that every loop has a known length and no
// row a test.
pub fn sum_full(
    t: &[u8],
    reference: &[u8],
    x0: usize,
    y0: usize,
    stride: usize,
    rows: usize,
    n: usize,
    best: u64,
) -> VectorSum
    requires { ReadIn t.now (record { samples = reference.now; stride = stride; rows = rows }) n 0 0 x0 y0 }
    ensures { Summed t.now (record { samples = reference.now; stride = stride; rows = rows }) n 0 0 x0 y0 best result }
{
    if n == 16 {
        sum_rows(t, reference, x0, y0, stride, rows, 16, 0, 0, best)
    } else {
        sum_rows(t, reference, x0, y0, stride, rows, 8, 0, 0, best)
    }
}

fn sum_half(
    t: &[u8],
    reference: &[u8],
    x0: usize,
    y0: usize,
    stride: usize,
    rows: usize,
    n: usize,
    ox: usize,
    oy: usize,
    best: u64,
) -> VectorSum
    requires { ReadIn t.now (record { samples = reference.now; stride = stride; rows = rows }) n ox oy x0 y0 × (1 ≤ ox + oy) }
    ensures { Summed t.now (record { samples = reference.now; stride = stride; rows = rows }) n ox oy x0 y0 best result }
{
    match (n, ox, oy) {
        (16, 0, _) => sum_rows(t, reference, x0, y0, stride, rows, 16, 0, 1, best),
        (16, _, 0) => sum_rows(t, reference, x0, y0, stride, rows, 16, 1, 0, best),
        (16, _, _) => sum_rows(t, reference, x0, y0, stride, rows, 16, 1, 1, best),
        (_, 0, _) => sum_rows(t, reference, x0, y0, stride, rows, 8, 0, 1, best),
        (_, _, 0) => sum_rows(t, reference, x0, y0, stride, rows, 8, 1, 0, best),
        _ => sum_rows(t, reference, x0, y0, stride, rows, 8, 1, 1, best),
    }
}

// The absolute error of the block of n by n samples read from x0, y0, all inside the canvas, against the best found so far, 65536 or more for none
// found: it ends behind the first row in which it reaches the best, else behind the last.
pub fn block_sum(
    t: &[u8],
    reference: &[u8],
    x0: usize,
    y0: usize,
    stride: usize,
    rows: usize,
    n: usize,
    ox: usize,
    oy: usize,
    best: u64,
) -> VectorSum
    requires { ReadIn t.now (record { samples = reference.now; stride = stride; rows = rows }) n ox oy x0 y0 }
    ensures { Summed t.now (record { samples = reference.now; stride = stride; rows = rows }) n ox oy x0 y0 best result }
{
    if 0 < ox + oy {
        return sum_half(t, reference, x0, y0, stride, rows, n, ox, oy, best);
    }
    sum_full(t, reference, x0, y0, stride, rows, n, best)
}
