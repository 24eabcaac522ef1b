// The room that always suffices: a writer that is lent so many bytes behind its start bit never answers 22.
#![tactic(auto)]

ghost use Rattle.std.specs.Prelude.{◌≡◌, ◌+◌, ◌*◌, ◌≤◌};
ghost use Rattle.book.specs.Book.{book_refusal};
ghost use Rattle.canvas.specs.Canvas.{largest_side, blocks_along};
ghost use Rattle.plane_room.specs.Room.{longest, most_bits, book_bits, any_bits, room_bytes, OfSize, OfSizeUnder};
ghost use Rattle.plane_room.specs.Calls.{room_answer, room_under_answer, RoomTold};

use bits::refusal::Refusal;
use book::inner::{mean_table, mode_table, stage_family, vector_table};
use book::svq1_vlc::Svq1Half;
use book_check::check_book;
use canvas::svq1_plane::check_size;
use code_tables::inner::entry_len;

// The length of a table's longest code.
fn longest_code(table: &[u8]) -> u32
    ensures { result ≡ longest table.now }
{
    (0..table.len() / 3)
        .map(|i| entry_len(table, i))
        .max()
        .unwrap_or(0)
}

// The most bits of a macroblock, by the longest codes of each kind.
fn most_bits(mode: u32, vector: u32, stage: u32, mean: u32) -> u32
    requires { (mode ≤ 32) × (vector ≤ 32) × (stage ≤ 32) × (mean ≤ 32) }
    ensures { result ≡ most_bits mode vector stage mean }
{
    mode + 8 * vector + (31 + 32 * (stage + mean + 24))
}

// The same under a book that passes.
fn book_bits(book: &[u8]) -> u32
    requires { book_refusal book.now ≡ 0 }
    ensures { result ≡ book_bits book.now }
{
    let mode = longest_code(mode_table(book));
    let vector = longest_code(vector_table(book));
    let intra_mean = longest_code(mean_table(book, Svq1Half::Intra));
    let inter_mean = longest_code(mean_table(book, Svq1Half::Inter));
    let intra_stage = longest_code(stage_family(book, Svq1Half::Intra));
    let inter_stage = longest_code(stage_family(book, Svq1Half::Inter));
    let mean = intra_mean.max(inter_mean);
    let stage = intra_stage.max(inter_stage);
    most_bits(mode, vector, stage, mean)
}

// Bytes for a plane whose size passes, with so many bits a macroblock.
fn room_bytes(width: usize, height: usize, bits: u32) -> usize
    requires { (width ≤ largest_side) × (height ≤ largest_side) × (bits ≤ any_bits) }
    ensures { result ≡ room_bytes bits (blocks_along height * blocks_along width) }
{
    (bits as usize * ((height + 15) / 16 * ((width + 15) / 16)) + 7) / 8
}

// The bytes that a plane of this size takes at most, under any book that passes; refused for a size that does not.
pub fn plane_room(width: usize, height: usize) -> Result<usize, Refusal>
    ensures { RoomTold (OfSize width height) (room_answer width height) result }
{
    check_size(width, height)?;
    Ok(room_bytes(width, height, 3135))
}

// The same under a given book, whose longest codes decide: the size is tested first, then the book.
pub fn plane_room_under(width: usize, height: usize, book: &[u8]) -> Result<usize, Refusal>
    ensures { RoomTold (OfSizeUnder width height book.now) (room_under_answer width height book.now) result }
{
    check_size(width, height)?;
    check_book(book)?;
    Ok(room_bytes(width, height, book_bits(book)))
}
