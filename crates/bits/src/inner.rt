// Functions that only the crates of this repository call. Most have a `requires`: the caller, proved too, meets it. The functions for
// everybody else, which refuse what does not fit, are in svq1_enc and svq1_vlc.
ghost use Rattle.std.specs.Prelude.{◌≡◌, ◌+◌, ◌*◌, ◌/◌, ◌%◌, ◌-◌, ◌^◌, ◌<◌, ◌≤◌, min, length, take, drop};
ghost use Rattle.std.proofs.lemmas.List.Edits.{sets};
ghost use Rattle.bits.specs.Basics.{signed_of};
ghost use Rattle.bits.specs.Bits.{msb, val_of, bits_of, put_bits};
ghost use Rattle.bits.specs.BitNeeds.{Fits, Wrote};
ghost use Rattle.bits.specs.Refusals.{number_of, refused_by};
ghost use Rattle.bits.specs.Calls.{start_refusal, room_refusal, bits_refusal};

use super::refusal::Refusal;

// The most bytes of a bit string: 2^28.
const MOST_BYTES: usize = 1 << 28;

// The byte b with its low k bits replaced by v shifted up by z.
fn byte_with(b: u8, k: u32, z: u32, v: u32) -> u8
    requires { (k ≤ 8) × (z ≤ k) × (v * 2 ^ z < 2 ^ k) }
    ensures { result ≡ b / 2 ^ k * 2 ^ k + v * 2 ^ z }
{
    let w = b as u32;
    ((w >> k << k) + (v << z)) as u8
}

// The n bits of v from bit `at` on, all in one byte, whose bits behind them become 0.
fn put_part(out: &mut [u8], at: usize, n: u32, v: u32)
    requires { (0 < n) × (at % 8 + n ≤ 8) × (at / 8 < length out.old) × (v < 2 ^ n) }
    ensures { bits_of out.new ≡ put_bits (bits_of out.old) at (msb n v) }
{
    let q = at / 8;
    let z = 8 - (at % 8) as u32 - n;
    out[q] = byte_with(out[q], n + z, z, v);
}

// The n bits of `value` from bit `down` up, bit 0 being the lowest.
fn part_of(value: u32, down: u32, n: u32) -> u32
    requires { (down < 32) × (n ≤ 8) }
    ensures { result ≡ value / 2 ^ down % 2 ^ n }
{
    (value >> down) % (1u32 << n)
}

// The low `width` bits of `value`, highest first, from bit `at` on; the bits behind them in the last byte become 0.
pub fn put_bits(out: &mut [u8], at: usize, width: u32, value: u32) -> usize
    requires { (width ≤ 32) × Fits (length out.old) at width }
    ensures { Wrote out.old at (msb width value) result out.new }
{
    let mut p = at;
    let mut left = width;
    while 0 < left {
        let room = 8 - (p % 8) as u32;
        let n = left.min(room);
        let part = part_of(value, left - n, n);
        put_part(out, p, n, part);
        p += n as usize;
        left -= n;
    }
    p
}

// The n bits from bit `at` on, as a number.
pub fn get_bits(s: &[u8], at: usize, n: u32) -> u32
    requires { (n ≤ 32) × Fits (length s.now) at n }
    ensures { result ≡ val_of (take n (drop at (bits_of s.now))) }
{
    let mut acc: u32 = 0;
    let mut p = at;
    let mut left = n;
    while 0 < left {
        let room = 8 - (p % 8) as u32;
        let k = left.min(room);
        let q = p / 8;
        let part = part_of(s[q] as u32, room - k, k);
        acc = joined(acc, k, part);
        p += k as usize;
        left -= k;
    }
    acc
}

// The number `acc` with the k bits of `part` put behind it.
fn joined(acc: u32, k: u32, part: u32) -> u32
    requires { (k ≤ 8) × (acc * 2 ^ k + part < 2 ^ 32) }
    ensures { result ≡ acc * 2 ^ k + part }
{
    (acc << k) + part
}

// Refuses a bit string that is too long, or a start bit that lies beyond it.
pub fn check_start(bytes: usize, at: usize) -> Result<(), Refusal>
    ensures { refused_by result ≡ start_refusal bytes at }
{
    if MOST_BYTES < bytes || 8 * bytes < at {
        return Err(Refusal::StartBit);
    }
    Ok(())
}

// The same, and answers `short` where fewer than `width` bits are left.
pub fn check_room(bytes: usize, at: usize, width: u32, short: Refusal) -> Result<(), Refusal>
    ensures { refused_by result ≡ room_refusal bytes at width (number_of short) }
{
    check_start(bytes, at)?;
    if 8 * bytes - at < width as usize {
        return Err(short);
    }
    Ok(())
}

// The same, and before it refuses a width above 32.
pub fn check_bits(bytes: usize, at: usize, width: u32, short: Refusal) -> Result<(), Refusal>
    ensures { refused_by result ≡ bits_refusal bytes at width (number_of short) }
{
    if 32 < width {
        return Err(Refusal::CodeWidth);
    }
    check_room(bytes, at, width, short)
}

// The number of what `check_room` refuses, 0 for nothing; here `short` may be any number.
pub fn room_refusal(bytes: usize, at: usize, width: u32, short: u8) -> u8
    ensures { result ≡ room_refusal bytes at width short }
{
    if let Err(refusal) = check_start(bytes, at) {
        return refusal.number();
    }
    if width as usize <= 8 * bytes - at {
        return 0;
    }
    short
}

// The number of what `check_bits` refuses, likewise.
pub fn bits_refusal(bytes: usize, at: usize, width: u32, short: u8) -> u8
    ensures { result ≡ bits_refusal bytes at width short }
{
    if width <= 32 {
        return room_refusal(bytes, at, width, short);
    }
    Refusal::CodeWidth.number()
}

// The run `xs` into `out` from place `at` on. Byte by byte: of a length that is known only at run time, `copy_from_slice` calls `memmove`, which the
// library would then ask of its host.
pub fn put_row(out: &mut [u8], at: usize, xs: &[u8])
    requires { at + length xs.now ≤ length out.old }
    ensures { out.new ≡ sets out.old at xs.now }
{
    for i in 0..xs.len() {
        out[at + i] = xs[i];
    }
}

// The number that a two's complement byte stands for.
pub fn signed(b: u8) -> i32
    ensures { result ≡ signed_of b }
{
    if b < 128 {
        return b as i32;
    }
    b as i32 - 256
}
