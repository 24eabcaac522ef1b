// Prints the house book's file and behind it the house codebook's numbers, one a line, both worked out from their rules (document 02, §3).
#![tactic(auto)]

use house_text::{HOUSE_TEXT_BYTES, write_house};
use std::io;

fn main(rt: HostRuntime) -> io::Result<()> {
    let mut text = [0u8; HOUSE_TEXT_BYTES];
    let bytes = write_house(&mut text).unwrap_or(0);
    rt.write_all(&text[..bytes])
}
