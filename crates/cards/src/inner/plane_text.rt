// The lines of plane cards: what was asked of the writer, what it and the reader answered.
use super::super::inner::line::{put_bytes, put_number};
use bits::refusal::{Refusal, number_told};
use plane_enc::svq1_enc_inter::WriteEnd;
use text::put_text;

// What the plane cards have in common, beside four vectors, which all of them allow; one card has another lambda.
pub const LAMBDA: u64 = 32;

pub const RADIUS: u8 = 8;

// The size, and the sample of a flat source and of a flat reference.
pub fn put_flat(line: &mut [u8], width: usize, height: usize, source: u8, reference: u8) -> usize {
    let x = put_number(line, 0, b"", width as u64);
    let size = put_number(line, x, b"x", height as u64);
    let over = put_number(line, size, b", source ", source as u64);
    put_number(line, over, b", reference ", reference as u64)
}

// How it is written: lambda and radius, the output in bytes and the start bit.
pub fn put_asked(line: &mut [u8], at: usize, lambda: u64, bytes: usize, start: usize) -> usize {
    let price = put_number(line, at, b", lambda ", lambda);
    let reach = put_number(line, price, b", radius ", RADIUS as u64);
    let room = put_number(line, reach, b", four vectors, bytes ", bytes as u64);
    put_number(line, room, b", start ", start as u64)
}

// Refusal, macroblocks done and next bit, of either call.
pub fn put_end(
    line: &mut [u8],
    at: usize,
    refused: Option<Refusal>,
    done: usize,
    next: usize,
) -> usize {
    let number = put_number(line, at, b": refused ", number_told(refused) as u64);
    let count = put_number(line, number, b", macroblocks ", done as u64);
    put_number(line, count, b", next bit ", next as u64)
}

// All that the writer answered, and the output as it left it.
pub fn put_written(line: &mut [u8], at: usize, end: WriteEnd, out: &[u8]) -> usize {
    let told = put_end(line, at, end.refused, end.done, end.next);
    let bits = put_number(line, told, b", bits ", end.bits);
    let error = put_number(line, bits, b", error ", end.error);
    let bytes = put_text(line, error, b", bytes");
    put_bytes(line, bytes, out)
}
