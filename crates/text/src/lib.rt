// Text in lent byte slices: decimal numbers, fields and lines.
#![tactic(auto)]

ghost use Rattle.std.specs.Prelude.{◌≡◌, ◌≤◌, Some, [], ◌∷◌, ◌++◌};
ghost use Rattle.text.specs.Text.{number_up_to, below_zero, decimal, signed64, signed_decimal, same as same_text};
ghost use Rattle.text.specs.ReadingForms.{TextFound, digit_of, digits_from};
ghost use Rattle.text.specs.WritingForms.{TextPut, DigitsCounted, SignedCounted};

use bits::inner::put_row;

// The place of the first b, where there is one.
pub fn find(t: &[u8], b: u8) -> Option<usize>
    ensures { TextFound b t.now result }
{
    t.iter().position(|c| *c == b)
}

// Whether two texts are the same.
#[tactic(auto, using(crate::specs::TextLaws::same_pointwise))]
pub fn same(t: &[u8], u: &[u8]) -> bool
    ensures { result ≡ same_text t.now u.now }
{
    t == u
}

// A digit's number.
fn digit(c: u8) -> Option<u64>
    ensures { result ≡ digit_of c }
{
    if !c.is_ascii_digit() {
        return None;
    }
    Some(u64::from(c - b'0'))
}

// The number that a run of digits stands for, where it is at most `most`. The value passes no bound on the way.
fn read_digits(t: &[u8], most: u64) -> Option<u64>
    ensures { result ≡ digits_from most 0 t.now }
{
    let mut n = 0;
    for c in t {
        let d = digit(*c)?;
        if most < d || (most - d) / 10 < n {
            return None;
        }
        n = 10 * n + d;
    }
    Some(n)
}

// A decimal number of at most `most` with no leading zeros.
#[tactic(auto, using(crate::specs::TextLaws::number_zeros))]
pub fn read_number(t: &[u8], most: u64) -> Option<u64>
    ensures { result ≡ number_up_to most t.now }
{
    if t.is_empty() {
        return None;
    }
    if 1 < t.len() && t[0] == b'0' {
        return None;
    }
    read_digits(t, most)
}

// A number that was read behind a minus: any but 0.
fn below_zero(size: u64) -> Option<i64>
    requires { size ≤ 9223372036854775808 }
    ensures { result ≡ below_zero (Some size) }
{
    if 0 < size {
        return Some(-1 - (size - 1) as i64);
    }
    None
}

// A signed decimal number that 64 bits hold, negative ones with a minus, none with leading zeros.
pub fn read_signed(t: &[u8]) -> Option<i64>
    ensures { result ≡ signed64 t.now }
{
    if t.is_empty() {
        return None;
    }
    if t[0] == b'-' {
        return below_zero(read_number(&t[1..], 9223372036854775808)?);
    }
    let size = read_number(t, 9223372036854775807)?;
    Some(size as i64)
}

// A text written at a place. The answer is the place behind it; where there is no room it is the place itself, and nothing is written.
pub fn put_text(out: &mut [u8], at: usize, t: &[u8]) -> usize
    ensures { TextPut out.old at t.now result out.new }
{
    if out.len() < at || out.len() - at < t.len() {
        return at;
    }
    put_row(out, at, t);
    at + t.len()
}

// How many decimal digits a number has. Each turn leaves a tenth, so that a `for` is no plainer.
pub fn digit_count(n: u64) -> usize
    ensures { DigitsCounted n result }
{
    let mut k = 1;
    let mut m = n;
    while 9 < m {
        m /= 10;
        k += 1;
    }
    k
}

// A number written in decimal at a place, from its last digit to its first; the answer is as for a text.
pub fn put_decimal(out: &mut [u8], at: usize, n: u64) -> usize
    ensures { TextPut out.old at (decimal n) result out.new }
{
    let k = digit_count(n);
    if out.len() < at || out.len() - at < k {
        return at;
    }
    let mut m = n;
    for i in (at..at + k).rev() {
        out[i] = b'0' + (m % 10) as u8;
        m /= 10;
    }
    at + k
}

// A number and the byte behind it, written at a place; the answer is as for a text.
pub fn put_field(out: &mut [u8], at: usize, n: u64, behind: u8) -> usize
    ensures { TextPut out.old at (decimal n ++ (behind ∷ [])) result out.new }
{
    let size = digit_count(n) + 1;
    if out.len() < at || out.len() - at < size {
        return at;
    }
    let next = put_decimal(out, at, n);
    out[next] = behind;
    next + 1
}

// How many bytes a signed number takes in decimal.
pub fn signed_count(z: i64) -> usize
    ensures { SignedCounted z result }
{
    let digits = digit_count(z.unsigned_abs());
    if 0 <= z {
        return digits;
    }
    digits + 1
}

// A signed number written in decimal at a place, a negative one with a minus; the answer is as for a text.
pub fn put_signed(out: &mut [u8], at: usize, z: i64) -> usize
    ensures { TextPut out.old at (signed_decimal z) result out.new }
{
    if 0 <= z {
        return put_decimal(out, at, z.unsigned_abs());
    }
    let bytes = signed_count(z);
    if out.len() < at || out.len() - at < bytes {
        return at;
    }
    out[at] = b'-';
    put_decimal(out, at + 1, z.unsigned_abs())
}
