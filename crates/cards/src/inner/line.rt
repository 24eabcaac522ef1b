// Parts of a line, put at a place of a lent slice. The answer is the place behind what was put; a text or a number that has no room is left out.
ghost use Rattle.std.specs.Prelude.{◌≡◌, ◌≤◌, ◌<◌, IfOk};
ghost use Rattle.text.specs.WritingForms.{TextPut};
ghost use Rattle.cards.specs.Numbers.{hex_digit, hex_byte};

use std::io;
use text::{put_decimal, put_signed, put_text};
use vectors::svq1_motion_predictor::Svq1Mv;

// A text and a number behind it.
pub fn put_number(line: &mut [u8], at: usize, before: &[u8], n: u64) -> usize {
    let digits = put_text(line, at, before);
    put_decimal(line, digits, n)
}

// A text and a signed number of 16 bits behind it.
pub fn put_short(line: &mut [u8], at: usize, before: &[u8], n: i16) -> usize {
    let number = put_text(line, at, before);
    put_signed(line, number, i64::from(n))
}

// What is put of a value; another text where there is none.
pub fn put_option<T: Copy, F: FnOnce(&mut [u8], usize, T) -> usize>(
    line: &mut [u8],
    at: usize,
    value: Option<T>,
    none: &[u8],
    put: F,
) -> usize
    requires { F.IsAlwaysCallable put }
{
    match value {
        Some(v) => put(line, at, v),
        None => put_text(line, at, none),
    }
}

// A text and a vector behind it, as (x,y).
pub fn put_vector(line: &mut [u8], at: usize, before: &[u8], v: Svq1Mv) -> usize {
    let open = put_text(line, at, before);
    let x = put_text(line, open, b"(");
    let comma = put_signed(line, x, i64::from(v.x));
    let y = put_text(line, comma, b",");
    let close = put_signed(line, y, i64::from(v.y));
    put_text(line, close, b")")
}

fn hex_digit(n: u8) -> u8
    requires { n < 16 }
    ensures { result ≡ hex_digit n }
{
    if n < 10 {
        return 48 + n;
    }
    87 + n
}

// A byte as two hexadecimal digits.
fn put_hex(line: &mut [u8], at: usize, b: u8) -> usize
    ensures { TextPut line.old at (hex_byte b) result line.new }
{
    let digits = [hex_digit(b / 16), hex_digit(b % 16)];
    put_text(line, at, &digits)
}

// Every byte of a slice, each behind a space.
pub fn put_bytes(line: &mut [u8], at: usize, bytes: &[u8]) -> usize {
    let mut end = at;
    for b in bytes {
        let digits = put_text(line, end, b" ");
        end = put_hex(line, digits, *b);
    }
    end
}

// Every byte of a slice as a number, each behind a space.
pub fn put_numbers(line: &mut [u8], at: usize, bytes: &[u8]) -> usize {
    let mut end = at;
    for b in bytes {
        end = put_number(line, end, b" ", u64::from(*b));
    }
    end
}

// The first n bytes written out, with a line feed behind them: 1 for a line that was printed, 0 where there is no room for it.
fn write_line(rt: &impl Print, line: &mut [u8], n: usize) -> io::Result<usize>
    ensures { IfOk result (λ lines. lines ≤ 1) }
{
    let end = put_text(line, n, b"\n");
    if line.len() < end {
        return Ok(0);
    }
    rt.write_all(&line[..end])?;
    Ok(1)
}

// The same: 1 for a line that was printed, else 0.
pub fn print_line(rt: &impl Print, line: &mut [u8], n: usize) -> usize
    ensures { result ≤ 1 }
{
    write_line(rt, line, n).unwrap_or(0)
}

// The last line: how many cards and other lines were printed.
pub fn print_counts(
    rt: &impl Print,
    line: &mut [u8],
    cards: usize,
    back: usize,
    levels: usize,
    sums: usize,
    texts: usize,
    margins: usize,
) -> io::Result<()> {
    let a = put_number(line, 0, b"cards ", cards as u64);
    let b = put_number(line, a, b", read back ", back as u64);
    let c = put_number(line, b, b", levels ", levels as u64);
    let d = put_number(line, c, b", sums ", sums as u64);
    let e = put_number(line, d, b", texts ", texts as u64);
    let all = put_number(line, e, b", margins ", margins as u64);
    write_line(rt, line, all)?;
    Ok(())
}
