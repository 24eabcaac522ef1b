// Where the codebook's pages and bytes stand.
pub mod inner;

ghost use Rattle.std.specs.Prelude.{◌≡◌, ◌<◌};
ghost use Rattle.book.specs.Level.{level_number};
ghost use Rattle.codebook.specs.CodebookCalls.{page_place, raster_place};
ghost use Rattle.codebook.specs.Raster.{RasterOrder, raster_start};

use super::svq1_codebook::inner::page_start;
use book::svq1_blocktree::Svq1Level;
use book::svq1_vlc::Svq1Half;

// Numbers of the raster order: a vector's bytes at L0, L1, L2 and L3.
pub const RASTER_NUMBERS: usize = 120;

// Where the half's page of the level begins in the payload; L4 and L5 have none.
#[tactic(auto, using(crate::specs::CodebookCallsLaws::page_at))]
pub fn half_byte_offset_in_payload(level: Svq1Level, half: Svq1Half) -> Option<usize>
    ensures { result ≡ page_place (level_number level) half }
{
    let d = level.number();
    if d < 4 {
        return Some(page_start(half, d));
    }
    None
}

// Where each byte of a vector goes in its block, in raster order: L0, L1, L2, L3.
const RASTER_ORDER: [u8; RASTER_NUMBERS] = [
    // L0
    0, 1, 2, 3, 4, 5, 6, 7,
    // L1
    0, 1, 2, 3, 4, 5, 6, 7, 8, 9, 10, 11, 12, 13, 14, 15,
    // L2
    0, 1, 2, 3, 8, 9, 10, 11, 16, 17, 18, 19, 24, 25, 26, 27, 4, 5, 6, 7, 12, 13, 14, 15, 20, 21,
    22, 23, 28, 29, 30, 31,
    // L3
    0, 1, 2, 3, 8, 9, 10, 11, 16, 17, 18, 19, 24, 25, 26, 27, 4, 5, 6, 7, 12, 13, 14, 15, 20, 21,
    22, 23, 28, 29, 30, 31, 32, 33, 34, 35, 40, 41, 42, 43, 48, 49, 50, 51, 56, 57, 58, 59, 36, 37,
    38, 39, 44, 45, 46, 47, 52, 53, 54, 55, 60, 61, 62, 63,
];

// The raster order of L0 to L3: 8, 16, 32 and 64 numbers, one behind the other.
pub fn raster_order() -> [u8; RASTER_NUMBERS]
    ensures { RasterOrder result }
{
    RASTER_ORDER
}

// Where the numbers of a level begin in the raster order.
fn raster_start(d: usize) -> usize
    requires { d < 4 }
    ensures { result ≡ raster_start d }
{
    match d {
        0 => 0,
        1 => 8,
        2 => 24,
        _ => 56,
    }
}

// Where a byte of one of the level's vectors goes in the block, in raster order.
pub fn vector_byte_to_raster(level: Svq1Level, byte: usize) -> Option<usize>
    ensures { result ≡ raster_place (level_number level) byte }
{
    let d = level.number();
    if 3 < d {
        return None;
    }
    if level.vector_length() <= byte {
        return None;
    }
    let order = raster_order();
    let i = raster_start(d) + byte;
    Some(order[i] as usize)
}
