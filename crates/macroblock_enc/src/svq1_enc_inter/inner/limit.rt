// How many bits a plane may take, and how many its next macroblock.
ghost use Rattle.std.specs.Prelude.{◌≡◌, ◌-◌, ◌*◌, length};
ghost use Rattle.macroblock.specs.declared.svq1_enc_inter.Svq1MbMode.TheVariants.{Skip};
ghost use Rattle.macroblock.specs.Macroblock.{mode_bits};
ghost use Rattle.macroblock.specs.MacroblockNeeds.{by_book};
ghost use Rattle.macroblock_enc.specs.LimitForms.{room_under, Reserved, Reserving};

use macroblock::svq1_enc_inter::Svq1MbMode;
use macroblock_bits::svq1_enc_inter::inner::mb_mode_bits;

// A limit on a plane: an allowance of bits for it and those behind it, which have so many macroblocks.
#[derive(Clone, Copy)]
pub struct BitLimit {
    pub allowance: u64,
    pub behind: u64,
}

// The bits that the next macroblock may take, with so many macroblocks left behind it in the plane; with no limit, more than any takes.
fn room_of(limit: Option<BitLimit>, spent: u64, skip: u64, left: u64) -> u64
    requires { Reserved limit spent skip left }
    ensures { result ≡ room_under limit spent skip left }
{
    match limit {
        None => 65536,
        Some(within) => within.allowance - (spent + skip * (left + within.behind)),
    }
}

// The same for macroblock k.
pub fn room_at(
    limit: Option<BitLimit>,
    spent: u64,
    book: &[u8],
    cols: usize,
    rows: usize,
    k: usize,
) -> u64
    requires { Reserving book.now limit cols rows k spent }
    ensures { result ≡ room_under limit spent (length (mode_bits (by_book book.now) Skip)) (rows * cols - k - 1) }
{
    let skip = mb_mode_bits(book, Svq1MbMode::Skip);
    let left = rows * cols - k - 1;
    room_of(limit, spent, skip as u64, left as u64)
}
