// Functions that only the crates of this repository call. Most have a `requires`: the caller, proved too, meets it. The functions for
// everybody else, which refuse what does not fit, are in svq1_enc and svq1_vlc.
ghost use Rattle.std.specs.Prelude.{◌≡◌, true, ◌+◌, ◌*◌, ◌/◌, ◌%◌, ◌-◌, ◌^◌, ◌<◌, ◌≤◌, min, length};
ghost use Rattle.bits.specs.Basics.{pick};
ghost use Rattle.bits.specs.Bits.{msb, bits_of};
ghost use Rattle.bits.specs.BitNeeds.{Fits, Wrote};
ghost use Rattle.bits.specs.Refusals.{answer_of};
ghost use Rattle.code_tables.specs.Calls.{read_answer};
ghost use Rattle.code_tables.specs.CodeNeeds.{GoodEntry, FirstThatBegins};
ghost use Rattle.code_tables.specs.RangeForms.{range_end, range_ends, meet, meetings, ranges_apart};
ghost use Rattle.code_tables.specs.Codes.{begins, code, codes_of, code_len, code_val, any_start, read_code, prefix_free, good_entry, good_table};

use super::svq1_vlc::CodeFound;
use bits::inner::{get_bits, put_bits};
use bits::refusal::Refusal;

// Whether the a bits of x are the first of the b bits of y.
fn begins_bits(x: u64, a: u32, y: u64, b: u32) -> bool
    requires { (a ≤ 32) × (b ≤ 32) × (x < 2 ^ a) × (y < 2 ^ b) }
    ensures { result ≡ begins (msb a x) (msb b y) }
{
    if a <= b { y >> (b - a) == x } else { false }
}

// The length that entry i of a table names.
pub fn entry_len(t: &[u8], i: usize) -> u32
    requires { i < length t.now / 3 }
    ensures { result ≡ code_len t.now i }
{
    t[3 * i + 2] as u32
}

// The code value of entry i.
pub fn entry_val(t: &[u8], i: usize) -> u64
    requires { i < length t.now / 3 }
    ensures { result ≡ code_val t.now i }
{
    t[3 * i] as u64 * 256 + t[3 * i + 1] as u64
}

// The first entry whose code begins the m bits of w.
fn find_code(table: &[u8], w: u64, m: u32) -> Option<usize>
    requires { (m ≤ 32) × (w < 2 ^ m) × (good_table table.now ≡ true) }
    ensures { FirstThatBegins (codes_of table.now) (msb m w) result }
{
    for i in 0..table.len() / 3 {
        if begins_bits(entry_val(table, i), entry_len(table, i), w, m) {
            return Some(i);
        }
    }
    None
}

// Whether the m bits of w are the start of some code.
fn any_start(table: &[u8], w: u64, m: u32) -> bool
    requires { (m ≤ 32) × (w < 2 ^ m) × (good_table table.now ≡ true) }
    ensures { result ≡ any_start (codes_of table.now) (msb m w) }
{
    (0..table.len() / 3).any(|i| begins_bits(w, m, entry_val(table, i), entry_len(table, i)))
}

// How many bits there are from bit `at` on, at most 32.
fn window(s: &[u8], at: usize) -> u32
    requires { Fits (length s.now) at 0 }
    ensures { result ≡ min 32 (8 * length s.now - at) }
{
    (8 * s.len() - at).min(32) as u32
}

// The first code of the table that stands at bit `at`.
pub fn read_code(s: &[u8], at: usize, table: &[u8]) -> Result<CodeFound, Refusal>
    requires { Fits (length s.now) at 0 × (good_table table.now ≡ true) }
    ensures { answer_of result ≡ read_answer (read_code (codes_of table.now) (bits_of s.now) at) }
{
    let m = window(s, at);
    let w = get_bits(s, at, m) as u64;
    if let Some(position) = find_code(table, w, m) {
        return Ok(CodeFound {
            position,
            next: at + entry_len(table, position) as usize,
        });
    }
    if any_start(table, w, m) {
        return Err(Refusal::BitsEnd);
    }
    Err(Refusal::NoCode)
}

// The code of entry k, from bit `at` on.
pub fn put_code(out: &mut [u8], at: usize, table: &[u8], k: usize) -> usize
    requires { GoodEntry table.now k × Fits (length out.old) at (code_len table.now k) }
    ensures { Wrote out.old at (code (codes_of table.now) k) result out.new }
{
    let len = entry_len(table, k);
    let val = entry_val(table, k) as u32;
    put_bits(out, at, len, val)
}

fn power_of_two(m: u32) -> u64
    requires { m ≤ 32 }
    ensures { (result ≡ 2 ^ m) × (1 ≤ result) }
{
    1u64 << m
}

// An end of the range of 32-bit numbers that begin with the n bits of v: the least for e = 0, the greatest for e = 1.
fn range_end(e: u64, v: u64, n: u32) -> u32
    requires { (e ≤ 1) × (1 ≤ n) × (n ≤ 32) × (v < 2 ^ n) }
    ensures { result ≡ range_end e v n }
{
    let size = power_of_two(32 - n);
    (v * size + e * (size - 1)) as u32
}

// These ends for every code of a table.
fn range_ends(table: &[u8], e: u64, out: &mut [u32])
    requires { (e ≤ 1) × (good_table table.now ≡ true) × (length out.old ≡ length table.now / 3) }
    ensures { out.new ≡ range_ends e table.now }
{
    for i in 0..out.len() {
        out[i] = range_end(e, entry_val(table, i), entry_len(table, i));
    }
}

// 1 where two ranges meet, else 0.
fn meets(low: u32, high: u32, other_low: u32, other_high: u32) -> u32
    ensures { (result ≡ pick (meet low high other_low other_high) 1 0) × (result ≤ 1) }
{
    (low <= other_high && other_low <= high) as u32
}

// How many ranges meet the one from `low` to `high`. No early end, so that several are compared at once.
fn count_meetings(low: u32, high: u32, lows: &[u32], highs: &[u32]) -> u32
    requires { (length lows.now ≡ length highs.now) × (length lows.now ≤ 65536) }
    ensures { result ≡ meetings low high lows.now highs.now }
{
    let mut met = 0;
    for k in 0..lows.len() {
        met += meets(low, high, lows[k], highs[k]);
    }
    met
}

// Whether no two ranges meet.
fn ranges_apart(lows: &[u32], highs: &[u32]) -> bool
    requires { (length lows.now ≡ length highs.now) × (length lows.now ≤ 65536) }
    ensures { result ≡ ranges_apart lows.now highs.now }
{
    for i in 0..lows.len() {
        let behind = i + 1;
        if count_meetings(lows[i], highs[i], &lows[behind..], &highs[behind..]) != 0 {
            return false;
        }
    }
    true
}

// Whether no code of the table begins another or equals it: their ranges, for which there is room in `lows` and `highs`, do not meet.
pub fn prefix_free(table: &[u8], lows: &mut [u32], highs: &mut [u32]) -> bool
    requires { (good_table table.now ≡ true) × (length lows.old ≡ length table.now / 3) × (length highs.old ≡ length table.now / 3) × (length lows.old ≤ 65536) }
    ensures { result ≡ prefix_free (codes_of table.now) }
{
    range_ends(table, 0, lows);
    range_ends(table, 1, highs);
    ranges_apart(lows, highs)
}

// Whether a code of this value and length can stand in a table.
#[tactic(auto, using(std::proofs::lemmas::Bool::Decides::nat_tests))]
pub fn good_entry(v: u64, n: u32) -> bool
    ensures { result ≡ good_entry v n }
{
    1 <= n && n <= 32 && v < 1u64 << n
}

// Whether every entry's length is 1 to 32 and its value below 2 to the length.
pub fn good_table(table: &[u8]) -> bool
    requires { length table.now % 3 ≡ 0 }
    ensures { result ≡ good_table table.now }
{
    (0..table.len() / 3).all(|i| good_entry(entry_val(table, i), entry_len(table, i)))
}
