// Signed numbers read from text and written again: the least and the largest of 64 bits, one past it, and a zero with a minus.
ghost use Rattle.std.specs.Prelude.{◌≤◌};

use super::super::inner::line::{print_line, put_option};
use text::{put_signed, put_text, read_signed};

fn print_text(rt: &impl Print, line: &mut [u8], t: &[u8]) -> usize
    ensures { result ≤ 1 }
{
    let word = put_text(line, 0, b"text ");
    let asked = put_text(line, word, t);
    let number = put_text(line, asked, b": number ");
    let all = put_option(line, number, read_signed(t), b"none", put_signed);
    print_line(rt, line, all)
}

pub fn print_texts(rt: &impl Print, line: &mut [u8]) -> usize
    ensures { result ≤ 4 }
{
    let least = print_text(rt, line, b"-9223372036854775808");
    let largest = print_text(rt, line, b"9223372036854775807");
    let past = print_text(rt, line, b"9223372036854775808");
    least + largest + past + print_text(rt, line, b"-0")
}
